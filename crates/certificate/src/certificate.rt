//! The lines of a certificate, as they are held.

ghost use Rattle.std.specs.Prelude.{◌≡◌, ◌+◌, ◌<◌, ◌≤◌, ◌↔◌, [], ◌∷◌, ◌++◌, length, IsTrue, IsOk, OnOk, OnErr, slice_get};
ghost use Rattle.rmm_spec.specs.CertificateText.{IsLine, IsCertificate};

use rmm_spec::{Line, Reply};
use std::alloc::{AllocError, Global};
use std::marker::Model;

/// The most lines that a certificate has.
pub const MOST_LINES: usize = 1_000_000;

/// A line in eight bytes. What an unfinished one claims has an index among the claims.
#[derive(Clone, Copy)]
enum Named {
    Keep { cpu: u8, number: u32 },
    Unfinished { cpu: u8, index: u32 },
}

const _: () = prove!(size_of::<Named>() == 8);

/// The number of an unfinished call, and the reply that it is claimed to have had.
#[derive(Drop)]
struct Claim {
    number: u32,
    reply: Reply,
}

/// The lines that a certificate claims, the first to take effect first.
#[derive(Drop)]
pub struct Certificate {
    names: Vec<Named>,
    claims: Vec<Claim>,
}

impl Model for Certificate {
    ghost use Rattle.std.specs.Prelude.{◌-◌, vec_len, vec_capacity};
    ghost use Rattle.certificate.specs.View.{Claimed, lines_of, IsHeld};

    ghost Value = { Claimed };

    ghost view = { λ c. record {
      lines = lines_of c.names.items c.claims.items;
      line_room = vec_capacity c.names - vec_len c.names;
      reply_room = vec_capacity c.claims - vec_len c.claims;
    } };

    ghost invariant = { λ c. IsHeld c.names.items c.claims.items };
}

/// One line of a certificate, as it is read from there.
#[derive(Clone, Copy)]
pub enum LineRef<'a> {
    /// A finished call, which gave the reply that the history records.
    Keep {
        cpu: u8,
        number: u32,
    },
    /// An unfinished call that took effect all the same, with the reply that it would have given.
    Unfinished {
        cpu: u8,
        number: u32,
        reply: &'a Reply,
    },
}

impl<'a> LineRef<'a> {
    ghost use Rattle.certificate.specs.LineRef.{line_seen};

    /// A line, seen where it lies.
    pub fn of(line: &'a Line) -> LineRef<'a>
        ensures { line_seen result ≡ line.now }
    {
        match line {
            Line::Keep { cpu, number } => LineRef::Keep {
                cpu: *cpu,
                number: *number,
            },
            Line::Unfinished { cpu, number, reply } => LineRef::Unfinished {
                cpu: *cpu,
                number: *number,
                reply,
            },
        }
    }
}

impl Certificate {
    ghost use Rattle.certificate.specs.LineRef.{line_seen};
    ghost use Rattle.rmm_spec.specs.declared.line.Line.TheVariants as line;
    ghost use Rattle.certificate.specs.View.{HasRoomFor};

    /// A certificate without lines.
    pub fn new(alloc: Global) -> Certificate
        ensures { result.lines ≡ [] }
    {
        Certificate {
            names: Vec::new(alloc),
            claims: Vec::new(alloc),
        }
    }

    /// How many lines there are.
    pub fn len(&self) -> usize
        ensures count { result ≡ length self.now.lines }
        ensures well_formed { IsCertificate self.now.lines }
    {
        self.names.len()
    }

    pub fn is_empty(&self) -> bool
        ensures { IsTrue result ↔ (self.now.lines ≡ []) }
    {
        self.names.is_empty()
    }

    /// The line of an index, counted from 0.
    pub fn line(&self, i: usize) -> LineRef<'_>
        requires { i < length self.now.lines }
        ensures { slice_get self.now.lines i ≡ Some (line_seen result) }
    {
        match self.names[i] {
            Named::Keep { cpu, number } => LineRef::Keep { cpu, number },
            Named::Unfinished { cpu, index } => {
                let claim = &self.claims[index as usize];
                LineRef::Unfinished {
                    cpu,
                    number: claim.number,
                    reply: &claim.reply,
                }
            }
        }
    }

    /// Whether another line may follow: there are fewer than a million.
    pub fn has_room(&self) -> bool
        ensures { IsTrue result ↔ (length self.now.lines < MOST_LINES) }
    {
        self.len() < MOST_LINES
    }

    /// Appends a line. Where memory is refused, no line changes.
    pub fn push(&mut self, line: Line) -> Result<(), AllocError>
        requires is_line { IsLine line }
        requires room { length self.old.lines < MOST_LINES }
        ensures ok { OnOk result (self.new.lines ≡ self.old.lines ++ line ∷ []) }
        ensures err { OnErr result (self.new.lines ≡ self.old.lines) }
        ensures succeeds { HasRoomFor line self.old → IsOk result }
    {
        match line {
            Line::Keep { cpu, number } => self.keep(cpu, number),
            Line::Unfinished { cpu, number, reply } => self.claim(cpu, number, reply),
        }
    }

    /// Appends the line of a finished call, as `push` does.
    #[inline(always)]
    fn keep(&mut self, cpu: u8, number: u32) -> Result<(), AllocError>
        requires is_line { IsLine (line.Keep cpu number) }
        requires room { length self.old.lines < MOST_LINES }
        ensures ok { OnOk result (self.new.lines ≡ self.old.lines ++ line.Keep cpu number ∷ []) }
        ensures err { OnErr result (self.new.lines ≡ self.old.lines) }
        ensures succeeds { 1 ≤ self.old.line_room → IsOk result }
    {
        self.names.reserve(1)?;
        self.names.push_reserved(Named::Keep { cpu, number });
        Ok(())
    }

    /// Appends the line of an unfinished call, as `push` does.
    #[inline(never)]
    fn claim(&mut self, cpu: u8, number: u32, reply: Reply) -> Result<(), AllocError>
        requires is_line { IsLine (line.Unfinished cpu number reply) }
        requires room { length self.old.lines < MOST_LINES }
        ensures ok { OnOk result (self.new.lines ≡ self.old.lines ++ line.Unfinished cpu number reply ∷ []) }
        ensures err { OnErr result (self.new.lines ≡ self.old.lines) }
        ensures succeeds { 1 ≤ self.old.line_room → 1 ≤ self.old.reply_room → IsOk result }
    {
        self.names.reserve(1)?;
        let index = self.claims.len() as u32;
        self.claims.push(Claim { number, reply })?;
        self.names.push_reserved(Named::Unfinished { cpu, index });
        Ok(())
    }
}
