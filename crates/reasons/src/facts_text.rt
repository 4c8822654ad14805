//! What a condition read of the state, in words.

use crate::facts::{EntryRead, Fact};
use realm_desc::{PendingExit, RipasRequest};
use rmm_spec::{RealmState, Ripas, Tag};
use std::fmt;

impl fmt::Display for Fact {
    fn fmt<W: fmt::Write>(&self, f: &mut fmt::Formatter<W>) -> fmt::Result {
        match *self {
            Fact::Nothing | Fact::Word { .. } => Ok(()),
            Fact::Place { .. } | Fact::Pending { .. } | Fact::Tag { .. } => write_place(f, self),
            Fact::Vmid { .. }
            | Fact::State { .. }
            | Fact::NextIndex { .. }
            | Fact::Space { .. }
            | Fact::RecLeft { .. } => write_realm_fact(f, self),
            Fact::Owner { .. } | Fact::Runs { .. } | Fact::Stopped { .. } | Fact::Request { .. } =>
                write_rec_fact(f, self),
            Fact::Entry { ipa, read, .. } => write!(
                f,
                "the walk ends at the entry for {ipa:x}, which at {read}"
            ),
            Fact::InUse { ipa, read, .. } => write!(f, "the entry for {ipa:x} at {read}"),
        }
    }
}

// What was read of a CPU or a granule.
fn write_place<W: fmt::Write>(f: &mut fmt::Formatter<W>, fact: &Fact) -> fmt::Result {
    match *fact {
        Fact::Place {
            cpu,
            rec: Some(rec),
        } => write!(f, "CPU {cpu} is inside REC {rec:x}"),
        Fact::Place { cpu, rec: None } => write!(f, "CPU {cpu} is inside no REC"),
        Fact::Pending { rec, pending } => {
            let pending = PendingText(pending);
            write!(f, "REC {rec:x} waits to leave for {pending}")
        }
        Fact::Tag {
            granule,
            needed,
            found,
        } => write_tag(f, granule, needed, found),
        _ => Ok(()),
    }
}

// What was read of a realm.
fn write_realm_fact<W: fmt::Write>(f: &mut fmt::Formatter<W>, fact: &Fact) -> fmt::Result {
    match *fact {
        Fact::Vmid { vmid, rd } => write!(f, "the realm at {rd:x} has VMID {vmid:x}"),
        Fact::State { rd, state } => {
            let state = StateText(state);
            write!(f, "the realm at {rd:x} is {state}")
        }
        Fact::NextIndex { rd, next_index } => {
            write!(
                f,
                "the next REC of the realm at {rd:x} has index {next_index:x}"
            )
        }
        Fact::Space {
            rd,
            width,
            start_level,
        } => write!(
            f,
            "the realm at {rd:x} has addresses of {width:x} bits and its root at level {start_level}"
        ),
        Fact::RecLeft { rec, .. } => write!(f, "{rec:x} is a REC of the realm"),
        _ => Ok(()),
    }
}

// What was read of a REC.
fn write_rec_fact<W: fmt::Write>(f: &mut fmt::Formatter<W>, fact: &Fact) -> fmt::Result {
    match *fact {
        Fact::Owner { rec, rd } => write!(f, "REC {rec:x} is one of the realm at {rd:x}"),
        Fact::Runs { rec, cpu } => write!(f, "REC {rec:x} runs on CPU {cpu}"),
        Fact::Stopped { rec } => write!(f, "REC {rec:x} isn't runnable"),
        Fact::Request {
            rec,
            request: Some(request),
        } => {
            let request = RequestText(request);
            write!(f, "REC {rec:x} asked for {request}")
        }
        Fact::Request { rec, request: None } => write!(f, "REC {rec:x} has no request"),
        _ => Ok(()),
    }
}

fn write_tag<W: fmt::Write>(
    f: &mut fmt::Formatter<W>,
    granule: u64,
    needed: Tag,
    found: Option<Tag>,
) -> fmt::Result {
    let needed = TagText(needed);
    match found {
        Some(found) => {
            let found = TagText(found);
            write!(f, "{granule:x} is {found}, and has to be {needed}")
        }
        None => write!(f, "{granule:x} is no granule, and has to be {needed}"),
    }
}

impl fmt::Display for EntryRead {
    fn fmt<W: fmt::Write>(&self, f: &mut fmt::Formatter<W>) -> fmt::Result {
        let (level, address) = (self.level, self.address);
        write!(f, "level {level} is ")?;
        match self.state {
            0 => f.write_str("unassigned")?,
            1 => write!(f, "assigned to {address:x}")?,
            _ => write!(f, "TABLE at {address:x}")?,
        }
        match self.ripas {
            0 => Ok(()),
            1 => f.write_str(" with RIPAS RAM"),
            _ => f.write_str(" with RIPAS DESTROYED"),
        }
    }
}

/// What a REC asked of its host.
#[derive(Clone, Copy)]
pub(crate) struct RequestText(pub(crate) RipasRequest);

impl fmt::Display for RequestText {
    fn fmt<W: fmt::Write>(&self, f: &mut fmt::Formatter<W>) -> fmt::Result {
        let RipasRequest { base, top, ripas } = self.0;
        let ripas = RipasText(ripas);
        write!(f, "RIPAS {ripas} from {base:x} to {top:x}")
    }
}

/// Why a REC waits to leave.
#[derive(Clone, Copy)]
pub struct PendingText(pub PendingExit);

impl fmt::Display for PendingText {
    fn fmt<W: fmt::Write>(&self, f: &mut fmt::Formatter<W>) -> fmt::Result {
        match self.0 {
            PendingExit::Psci(number) => write!(f, "PSCI call {number:x}"),
            PendingExit::RipasChange => f.write_str("a change of RIPAS"),
            PendingExit::HostCall(imm) => write!(f, "host call {imm:x}"),
        }
    }
}

/// A RIPAS by its name.
#[derive(Clone, Copy)]
pub struct RipasText(pub Ripas);

impl fmt::Display for RipasText {
    fn fmt<W: fmt::Write>(&self, f: &mut fmt::Formatter<W>) -> fmt::Result {
        f.write_str(match self.0 {
            Ripas::Empty => "EMPTY",
            Ripas::Ram => "RAM",
            Ripas::Destroyed => "DESTROYED",
        })
    }
}

/// How far a realm has come, by its name.
#[derive(Clone, Copy)]
pub struct StateText(pub RealmState);

impl fmt::Display for StateText {
    fn fmt<W: fmt::Write>(&self, f: &mut fmt::Formatter<W>) -> fmt::Result {
        f.write_str(match self.0 {
            RealmState::New => "NEW",
            RealmState::Active => "ACTIVE",
            RealmState::SystemOff => "SYSTEM_OFF",
        })
    }
}

/// A tag by its name.
#[derive(Clone, Copy)]
pub struct TagText(pub Tag);

impl fmt::Display for TagText {
    fn fmt<W: fmt::Write>(&self, f: &mut fmt::Formatter<W>) -> fmt::Result {
        f.write_str(match self.0 {
            Tag::Undelegated => "UNDELEGATED",
            Tag::Delegated => "DELEGATED",
            Tag::Rd => "RD",
            Tag::Rec => "REC",
            Tag::RecAux => "REC_AUX",
            Tag::Data => "DATA",
            Tag::Rtt => "RTT",
        })
    }
}
