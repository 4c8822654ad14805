//! Replies.

ghost use Rattle.std.specs.Prelude.{◌≡◌, ◌≢◌, ◌<◌, [], ◌∷◌, ℕ, List, length, Ok, codes, IsTrue, IsFalse, IsOk, IsOkAnd, IfOk, IfErr, OnOk, ◌≤◌};
ghost use Rattle.rmm_spec.specs.declared.reply.Reply.{Reply};
ghost use Rattle.rmm_spec.specs.CommandText.{IsReply, reply_parts, reply_text};
ghost use Rattle.rmm_spec.specs.Text.{decimal, parts_of};
ghost use Rattle.rmi_view.specs.Seen.{HasFewWords, reply_seen};
ghost use Rattle.rmi_codec.specs.Faults.{IsReplyFault, IsSmallFault, IsEndFault};
ghost use Rattle.rmi_codec.specs.Spaced.{parts_behind};

use crate::decimal::next_decimal;
use crate::fault::{CodecFault, part_fault};
use crate::numeral::is_end;
use crate::parts::Parts;
use crate::word::read_words;
use rmi_view::ReplyRef;
use rmm_spec::Reply;

// Reads a status or an index from the next part.
fn take_small(parts: &mut Parts<'_>) -> Result<u8, CodecFault>
    ensures found { IfOk result (λ n. parts.old ≡ decimal n ∷ parts.new) }
    ensures only { (n : ℕ) (rest : List (List ℕ)) → n < 256 → parts.old ≡ decimal n ∷ rest → result ≡ Ok n }
    ensures fault { IfErr result (λ e. IsSmallFault e parts.old) }
{
    let Some(number) = next_decimal(parts, u64::from(u8::MAX)) else {
        return Err(part_fault(parts));
    };
    Ok(number as u8)
}

// Whether nothing is left of a line.
fn finish(mut parts: Parts<'_>) -> Result<(), CodecFault>
    ensures found { OnOk result (parts.entry ≡ []) }
    ensures only { parts.entry ≡ [] → IsOk result }
    ensures fault { IfErr result (λ e. IsEndFault e parts.entry) }
{
    match parts.next_part() {
        None => Ok(()),
        Some(part) if part.is_empty() => Err(CodecFault::BadSpacing),
        Some(_) => Err(CodecFault::BadForm),
    }
}

// Reads what stands behind `ok`.
#[inline(always)]
fn ok_from<'w>(words: &'w mut [u64; 10], parts: Parts<'_>) -> Result<ReplyRef<'w>, CodecFault>
    ensures found { IfOk result (λ seen. IsReply (reply_seen seen) × (codes "ok" ∷ parts.entry ≡ reply_parts (reply_seen seen))) }
    ensures only { (r : Reply) → IsReply r → codes "ok" ∷ parts.entry ≡ reply_parts r → IsOkAnd result (λ seen. reply_seen seen ≡ r) }
    ensures few { IfOk result (λ seen. HasFewWords (reply_seen seen)) }
    ensures fault { IfErr result (λ e. IsReplyFault e (codes "ok" ∷ parts.entry)) }
{
    let words = read_words(words, parts, CodecFault::BadForm)?;
    Ok(ReplyRef::Ok(words))
}

// Reads what stands behind `err`.
fn err_from<'w>(mut parts: Parts<'_>) -> Result<ReplyRef<'w>, CodecFault>
    ensures found { IfOk result (λ seen. IsReply (reply_seen seen) × (codes "err" ∷ parts.entry ≡ reply_parts (reply_seen seen))) }
    ensures only { (r : Reply) → IsReply r → codes "err" ∷ parts.entry ≡ reply_parts r → IsOkAnd result (λ seen. reply_seen seen ≡ r) }
    ensures few { IfOk result (λ seen. HasFewWords (reply_seen seen)) }
    ensures fault { IfErr result (λ e. IsReplyFault e (codes "err" ∷ parts.entry)) }
{
    let status = take_small(&mut parts)?;
    let index = take_small(&mut parts)?;
    finish(parts)?;
    Ok(ReplyRef::Err(status, index))
}

// Reads what stands behind `misplaced`: nothing.
fn misplaced_from<'w>(parts: Parts<'_>) -> Result<ReplyRef<'w>, CodecFault>
    ensures found { IfOk result (λ seen. IsReply (reply_seen seen) × (codes "misplaced" ∷ parts.entry ≡ reply_parts (reply_seen seen))) }
    ensures only { (r : Reply) → IsReply r → codes "misplaced" ∷ parts.entry ≡ reply_parts r → IsOkAnd result (λ seen. reply_seen seen ≡ r) }
    ensures few { IfOk result (λ seen. HasFewWords (reply_seen seen)) }
    ensures fault { IfErr result (λ e. IsReplyFault e (codes "misplaced" ∷ parts.entry)) }
{
    finish(parts)?;
    Ok(ReplyRef::Misplaced)
}

// Whether the first part of a line is `ok`.
#[inline(always)]
#[tactic(auto, using(std::proofs::lemmas::Grind::common_steps, crate::proofs::PrefixLaws::ok_read, crate::proofs::PrefixLaws::ok_short, crate::proofs::PrefixLaws::ok_first, crate::proofs::PrefixLaws::ok_second, crate::proofs::PrefixLaws::ok_end))]
pub(crate) fn ok_prefix(line: &[u8]) -> bool
    ensures found { IsTrue result → parts_of line.now ≡ codes "ok" ∷ parts_behind 2 line.now }
    ensures inside { IsTrue result → 2 ≤ length line.now }
    ensures none { IsFalse result → (rest : List (List ℕ)) → parts_of line.now ≢ codes "ok" ∷ rest }
{
    if line.len() < 2 {
        return false;
    }
    if line[0] != b'o' {
        return false;
    }
    if line[1] != b'k' {
        return false;
    }
    is_end(line, 2)
}

/// Reads the reply that the parts spell, all of them. Its words lie in the buffer, over those of the line before.
#[inline(always)]
pub fn reply_from<'w>(
    words: &'w mut [u64; 10],
    mut parts: Parts<'_>,
) -> Result<ReplyRef<'w>, CodecFault>
    ensures found { IfOk result (λ seen. IsReply (reply_seen seen) × (parts.entry ≡ reply_parts (reply_seen seen))) }
    ensures only { (r : Reply) → IsReply r → parts.entry ≡ reply_parts r → IsOkAnd result (λ seen. reply_seen seen ≡ r) }
    ensures few { IfOk result (λ seen. HasFewWords (reply_seen seen)) }
    ensures fault { IfErr result (λ e. IsReplyFault e parts.entry) }
{
    if parts.next_ok() {
        return ok_from(words, parts);
    }
    other_from(parts)
}

// Reads a reply in another form than `ok`.
#[inline(never)]
fn other_from<'w>(mut parts: Parts<'_>) -> Result<ReplyRef<'w>, CodecFault>
    requires { (rest : List (List ℕ)) → parts ≢ codes "ok" ∷ rest }
    ensures found { IfOk result (λ seen. IsReply (reply_seen seen) × (parts.entry ≡ reply_parts (reply_seen seen))) }
    ensures only { (r : Reply) → IsReply r → parts.entry ≡ reply_parts r → IsOkAnd result (λ seen. reply_seen seen ≡ r) }
    ensures few { IfOk result (λ seen. HasFewWords (reply_seen seen)) }
    ensures fault { IfErr result (λ e. IsReplyFault e parts.entry) }
{
    let Some(form) = parts.next_part() else {
        return Err(CodecFault::BadForm);
    };
    if form == b"err".as_slice() {
        return err_from(parts);
    }
    if form == b"misplaced".as_slice() {
        return misplaced_from(parts);
    }
    if form.is_empty() {
        return Err(CodecFault::BadSpacing);
    }
    Err(CodecFault::BadForm)
}

/// Reads a reply's text.
pub fn read_reply(text: &str) -> Result<Reply, CodecFault>
    ensures found { IfOk result (λ r. IsReply r × (text.now ≡ reply_text r)) }
    ensures only { (r : Reply) → IsReply r → text.now ≡ reply_text r → result ≡ Ok r }
    ensures fault { IfErr result (λ e. IsReplyFault e (parts_of text.now)) }
{
    let mut words = [0; 10];
    match reply_from(&mut words, Parts::of(text.as_bytes())) {
        Ok(reply) => Ok(reply.to_reply()),
        Err(fault) => Err(fault),
    }
}
