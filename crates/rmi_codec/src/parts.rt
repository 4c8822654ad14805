//! A line, cut at its spaces.

ghost use Rattle.std.specs.Prelude.{◌≡◌, ◌≢◌, ◌==◌, ◌↔◌, ℕ, ◌<◌, ◌≤◌, ◌^◌, [], ◌∷◌, List, length, drop, codes, IsTrue, IsFalse, IfSome, IfNone, position, ◌+◌};
ghost use Rattle.rmm_spec.specs.declared.function_id.FunctionId.{FunctionId};
ghost use Rattle.rmm_spec.specs.Function.{number_of};
ghost use Rattle.rmm_spec.specs.Text.{fixed_hex, numeral, parts_of};
ghost use Rattle.rmi_codec.specs.Spaced.{parts_behind};

use crate::function::function_prefix;
use crate::numeral::{is_end, numeral_prefix};
use crate::reply::ok_prefix;
use rmm_spec::FunctionId;
use std::marker::Model;

/// The parts of a line that are left to read. A line of n spaces has n + 1 parts, and a part may be empty.
#[derive(Drop)]
pub struct Parts<'a> {
    line: &'a [u8],
    // where the next part begins, and past the line's end where none is left
    at: usize,
}

impl<'a> Model for Parts<'a> {
    ghost use Rattle.std.specs.Prelude.{ℕ, List};
    ghost use Rattle.rmi_codec.specs.Spaced.{parts_from};

    ghost Value = { List (List ℕ) };

    ghost view = { λ p. parts_from p.at p.line.now };
}

// The index of the first space.
#[inline(always)]
fn first_space(line: &[u8]) -> Option<usize>
    ensures { result ≡ position (λ byte. byte == 32) line.now }
{
    line.iter().position(|byte| *byte == b' ')
}

// What stands behind the part that begins at a place and is so long.
#[inline(always)]
fn behind(line: &[u8], at: usize, count: usize) -> Parts<'_>
    requires { at + count ≤ length line.now }
    ensures { result ≡ parts_behind count (drop at line.now) }
{
    Parts {
        line,
        at: at + count + 1,
    }
}

impl<'a> Parts<'a> {
    /// All parts of a line, which is given without its newline.
    pub fn of(line: &'a [u8]) -> Parts<'a>
        ensures { result ≡ parts_of line.now }
    {
        Parts { line, at: 0 }
    }

    /// Takes the next part off.
    pub fn next_part(&mut self) -> Option<&'a [u8]>
        ensures next { IfSome result (λ part. self.old ≡ part.now ∷ self.new) }
        ensures over { IfNone result (self.old ≡ []) }
        ensures stays { IfNone result (self.new ≡ []) }
    {
        if self.at > self.line.len() {
            return None;
        }
        let rest = self.line.split_at(self.at).1;
        let end = first_space(rest).unwrap_or(rest.len());
        let part = rest.split_at(end).0;
        *self = behind(self.line, self.at, end);
        Some(part)
    }

    /// Takes the next part off, where it is one byte. Else nothing is taken.
    #[inline(always)]
    pub(crate) fn next_letter(&mut self) -> Option<u8>
        ensures found { IfSome result (λ letter. self.old ≡ (letter ∷ []) ∷ self.new) }
        ensures none { IfNone result ((letter : ℕ) (rest : List (List ℕ)) → self.old ≢ (letter ∷ []) ∷ rest) }
    {
        if self.at >= self.line.len() {
            return None;
        }
        let rest = self.line.split_at(self.at).1;
        let letter = rest[0];
        if letter == b' ' || !is_end(rest, 1) {
            return None;
        }
        *self = behind(self.line, self.at, 1);
        Some(letter)
    }

    /// Takes the next part off, where it spells a number within the limit in this base. Else nothing is taken.
    #[inline(always)]
    pub(crate) fn next_numeral(&mut self, base: u64, most: u64) -> Option<u64>
        requires least { 2 ≤ base }
        requires most { base ≤ 16 }
        ensures found { IfSome result (λ n. self.old ≡ numeral base n ∷ self.new) }
        ensures within { IfSome result (λ n. n ≤ most) }
        ensures none { IfNone result ((n : ℕ) (rest : List (List ℕ)) → n ≤ most → self.old ≢ numeral base n ∷ rest) }
        ensures kept { IfNone result (self.new ≡ self.old) }
    {
        if self.at > self.line.len() {
            return None;
        }
        let rest = self.line.split_at(self.at).1;
        let (number, end) = numeral_prefix(rest, base, most)?;
        *self = behind(self.line, self.at, end);
        Some(number)
    }

    /// Takes the next part off, where it is the number of a function. Else nothing is taken.
    #[inline(always)]
    pub fn next_function(&mut self) -> Option<FunctionId>
        ensures found { IfSome result (λ f. self.old ≡ fixed_hex 8 (number_of f) ∷ self.new) }
        ensures none { IfNone result ((f : FunctionId) (rest : List (List ℕ)) → self.old ≢ fixed_hex 8 (number_of f) ∷ rest) }
        ensures kept { IfNone result (self.new ≡ self.old) }
    {
        if self.at > self.line.len() {
            return None;
        }
        let rest = self.line.split_at(self.at).1;
        let function = function_prefix(rest)?;
        *self = behind(self.line, self.at, 8);
        Some(function)
    }

    /// Takes the next part off, where it is `ok`. Else nothing is taken.
    #[inline(always)]
    pub(crate) fn next_ok(&mut self) -> bool
        ensures found { IsTrue result → self.old ≡ codes "ok" ∷ self.new }
        ensures none { IsFalse result → (rest : List (List ℕ)) → self.old ≢ codes "ok" ∷ rest }
        ensures kept { IsFalse result → self.new ≡ self.old }
    {
        if self.at > self.line.len() {
            return false;
        }
        let rest = self.line.split_at(self.at).1;
        if !ok_prefix(rest) {
            return false;
        }
        *self = behind(self.line, self.at, 2);
        true
    }

    /// Whether no part is left.
    #[inline(always)]
    pub(crate) fn is_over(&self) -> bool
        ensures { IsTrue result ↔ (self.now ≡ []) }
    {
        self.at > self.line.len()
    }
}
