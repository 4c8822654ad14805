//! Lines at the front of a text, read before it is known where they end. A line that isn't read so may be one all the same.

ghost use Rattle.std.specs.Prelude.{◌≡◌, ◌+◌, ◌<◌, ◌≤◌, ◌^◌, [], ◌∷◌, ◌++◌, length, get_or, map, take, IfSome};
ghost use Rattle.rmm_spec.specs.Function.{number_of};
ghost use Rattle.rmm_spec.specs.Text.{fixed_hex, numeral, word};
ghost use Rattle.rmm_spec.specs.CommandText.{AreWords, IsCommand, command_text, reply_text};
ghost use Rattle.rmm_spec.specs.declared.reply.Reply.TheVariants as Reply;
ghost use Rattle.rmi_view.specs.Seen.{command_seen};
ghost use Rattle.rmi_codec.specs.Head.{head_text};
ghost use Rattle.rmi_codec.specs.Spaced.{spaced};

use crate::function::{function_front, words_of};
use crate::hex_front::hex_front;
use crate::numeral::digit_of;
use rmi_view::CommandRef;
use rmm_spec::FunctionId;

// How many digits the decimals of a line have at most: the number of a call.
const MOST_DIGITS: usize = 6;

// The number that the decimal digits at a text's front spell, up to so many of them, and how many they are. None of them needs a test
// for the text's end or for the number's size.
#[inline(always)]
fn digits_front(text: &[u8]) -> Option<(u64, usize)>
    requires long { 6 < length text.now }
    ensures found { IfSome result (λ p. take p.1 text.now ≡ numeral 10 p.0) }
    ensures inside { IfSome result (λ p. p.1 < length text.now) }
{
    let first = digit_of(text[0], 10);
    if first >= 10 {
        return None;
    }
    if first == 0 {
        return Some((0, 1));
    }
    let mut number = first;
    let mut count: usize = 1;
    while count < MOST_DIGITS {
        let digit = digit_of(text[count], 10);
        if digit >= 10 {
            return Some((number, count));
        }
        number = number * 10 + digit;
        count += 1;
    }
    Some((number, count))
}

// The number within the limit whose decimal digits a text begins with, and how many they are. Another byte follows them. It is read
// where the text is longer than all that a decimal may have.
#[inline(always)]
fn decimal_front(text: &[u8], most: u64) -> Option<(u64, usize)>
    ensures found { IfSome result (λ p. take p.1 text.now ≡ numeral 10 p.0) }
    ensures within { IfSome result (λ p. p.0 ≤ most) }
    ensures inside { IfSome result (λ p. p.1 < length text.now) }
{
    if text.len() <= MOST_DIGITS {
        return None;
    }
    let (number, count) = digits_front(text)?;
    if number > most {
        return None;
    }
    Some((number, count))
}

// The same at a place, and the place behind it.
#[inline(always)]
fn decimal_at(text: &[u8], at: usize, most: u64) -> Option<(u64, usize)>
    requires { at ≤ length text.now }
    ensures found { IfSome result (λ p. take p.1 text.now ≡ take at text.now ++ numeral 10 p.0) }
    ensures within { IfSome result (λ p. p.0 ≤ most) }
    ensures inside { IfSome result (λ p. p.1 < length text.now) }
    ensures on { IfSome result (λ p. at ≤ p.1) }
{
    let (number, count) = decimal_front(text.split_at(at).1, most)?;
    Some((number, at + count))
}

// The word at a place, and the place behind it, before another byte. It is read where more than sixteen bytes are left.
#[inline(always)]
fn word_at(text: &[u8], at: usize) -> Option<(u64, usize)>
    requires { at ≤ length text.now }
    ensures found { IfSome result (λ p. take p.1 text.now ≡ take at text.now ++ numeral 16 p.0) }
    ensures within { IfSome result (λ p. p.0 < 2 ^ 64) }
    ensures inside { IfSome result (λ p. p.1 < length text.now) }
    ensures on { IfSome result (λ p. at ≤ p.1) }
{
    let rest = text.split_at(at).1;
    if rest.len() <= 16 {
        return None;
    }
    let (word, count) = hex_front(rest)?;
    Some((word, at + count))
}

/// The CPU and the number in the head that a text begins with, where the CPU is one digit and both are below these limits, and the
/// place behind it. The letter is the text's first byte.
#[inline(always)]
pub fn head_at(text: &[u8], cpus: u8, calls: u32) -> Option<(u8, u32, usize)>
    ensures found { IfSome result (λ p. take p.2 text.now ≡ head_text (get_or text.now 0 0) p.0 p.1) }
    ensures cpu { IfSome result (λ p. p.0 < cpus) }
    ensures number { IfSome result (λ p. p.1 < calls) }
    ensures inside { IfSome result (λ p. p.2 < length text.now) }
{
    if text.len() < 4 {
        return None;
    }
    if text[1] != b' ' {
        return None;
    }
    if text[3] != b' ' {
        return None;
    }
    let cpu = digit_of(text[2], 10);
    if cpu >= 10 {
        return None;
    }
    if cpu >= u64::from(cpus) {
        return None;
    }
    let most = calls.checked_sub(1)?;
    let (number, end) = decimal_at(text, 4, u64::from(most))?;
    Some((cpu as u8, number as u32, end))
}

// The function whose number stands at a place, before another byte.
#[inline(always)]
fn function_at(text: &[u8], at: usize) -> Option<FunctionId>
    requires { at ≤ length text.now }
    ensures found { IfSome result (λ f. take (at + 8) text.now ≡ take at text.now ++ fixed_hex 8 (number_of f)) }
    ensures inside { IfSome result (λ f. at + 8 < length text.now) }
{
    let rest = text.split_at(at).1;
    if rest.len() < 9 {
        return None;
    }
    let function = function_front(rest)?;
    Some(function)
}

// The words at a place, each behind a space, up to a newline, and the place behind that. They are read into the buffer.
#[inline(always)]
fn words_at<'w>(words: &'w mut [u64; 10], text: &[u8], at: usize) -> Option<(&'w [u64], usize)>
    requires { at < length text.now }
    ensures found { IfSome result (λ p. take p.1 text.now ≡ take at text.now ++ (spaced (map word p.0.now) ++ 10 ∷ [])) }
    ensures words { IfSome result (λ p. AreWords p.0.now) }
    ensures few { IfSome result (λ p. length p.0.now ≤ 10) }
    ensures inside { IfSome result (λ p. p.1 ≤ length text.now) }
    ensures on { IfSome result (λ p. at < p.1) }
{
    let mut count: usize = 0;
    let mut end = at;
    while text[end] == b' ' {
        if count == words.len() {
            return None;
        }
        let (word, next) = word_at(text, end + 1)?;
        words[count] = word;
        count += 1;
        end = next;
    }
    if text[end] != b'\n' {
        return None;
    }
    Some((&words[..count], end + 1))
}

/// The command at a place, behind a space and up to a newline, and the place behind that. Its words are read into the buffer.
#[inline(always)]
pub fn command_at<'w>(
    words: &'w mut [u64; 10],
    text: &[u8],
    at: usize,
) -> Option<(CommandRef<'w>, usize)>
    requires { at < length text.now }
    ensures found { IfSome result (λ p. take p.1 text.now ≡ take at text.now ++ (32 ∷ command_text (command_seen p.0) ++ 10 ∷ [])) }
    ensures command { IfSome result (λ p. IsCommand (command_seen p.0)) }
    ensures few { IfSome result (λ p. length p.0.words.now ≤ 10) }
    ensures inside { IfSome result (λ p. p.1 ≤ length text.now) }
    ensures on { IfSome result (λ p. at < p.1) }
{
    if text[at] != b' ' {
        return None;
    }
    let function = function_at(text, at + 1)?;
    let (words, end) = words_at(words, text, at + 9)?;
    if words.len() != words_of(function) {
        return None;
    }
    Some((CommandRef { function, words }, end))
}

/// The words of the reply at a place in the form `ok`, behind a space and up to a newline, and the place behind that. They are
/// read into the buffer.
#[inline(always)]
pub fn ok_at<'w>(words: &'w mut [u64; 10], text: &[u8], at: usize) -> Option<(&'w [u64], usize)>
    requires { at < length text.now }
    ensures found { IfSome result (λ p. take p.1 text.now
        ≡ take at text.now ++ (32 ∷ reply_text (Reply.Ok (record { items = p.0.now })) ++ 10 ∷ [])) }
    ensures words { IfSome result (λ p. AreWords p.0.now) }
    ensures few { IfSome result (λ p. length p.0.now ≤ 10) }
    ensures inside { IfSome result (λ p. p.1 ≤ length text.now) }
    ensures on { IfSome result (λ p. at < p.1) }
{
    let rest = text.split_at(at).1;
    if rest.len() < 4 {
        return None;
    }
    if rest[0] != b' ' {
        return None;
    }
    if rest[1] != b'o' {
        return None;
    }
    if rest[2] != b'k' {
        return None;
    }
    let (words, end) = words_at(words, text, at + 3)?;
    Some((words, end))
}

/// The status and the index of the reply at a place in the form `err`, behind a space and up to a newline, and the place behind
/// that.
#[inline(always)]
pub fn err_at(text: &[u8], at: usize) -> Option<(u8, u8, usize)>
    requires { at < length text.now }
    ensures found { IfSome result (λ p. take p.2 text.now ≡ take at text.now ++ (32 ∷ reply_text (Reply.Err p.0 p.1) ++ 10 ∷ [])) }
    ensures inside { IfSome result (λ p. p.2 ≤ length text.now) }
    ensures on { IfSome result (λ p. at < p.2) }
{
    let rest = text.split_at(at).1;
    if rest.len() < 6 {
        return None;
    }
    if rest.split_at(5).0 != b" err ".as_slice() {
        return None;
    }
    let (status, middle) = decimal_at(text, at + 5, 255)?;
    if text[middle] != b' ' {
        return None;
    }
    let (index, end) = decimal_at(text, middle + 1, 255)?;
    if text[end] != b'\n' {
        return None;
    }
    Some((status as u8, index as u8, end + 1))
}
