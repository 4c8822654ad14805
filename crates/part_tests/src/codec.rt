//! Texts that are written, and the parts that readers are made of.

use arrayvec::ArrayVec;
use rmi_codec::{Command, FunctionId, Parts, Reply, decimal_from};
use std::alloc::Global;
use std::test::Fail;
use text_writers::{push_decimal, write_command, write_reply};

fn command(function: FunctionId, word: u64) -> Command {
    let mut words = ArrayVec::new();
    words.push(word);
    Command { function, words }
}

// Whether that text stands once the command is appended.
fn has_appended(
    out: &mut Vec<u8>,
    function: FunctionId,
    word: u64,
    text: &[u8],
) -> Result<bool, Fail> {
    write_command(&command(function, word), out)?;
    Ok(out.as_slice() == text)
}

fn are_appended(out: &mut Vec<u8>) -> Result<bool, Fail> {
    let text = b"c4000152 ffffffffffffffff00000001 0";
    let (front, _) = text.split_at(25);
    Ok(
        has_appended(out, FunctionId::GranuleUndelegate, u64::MAX, front)?
            && has_appended(out, FunctionId::Exit, 0, text)?,
    )
}

#[test]
fn writes_commands(rt: HostRuntime) -> Result<(), Fail> {
    let mut out = Vec::new(rt.alloc());
    assert!(rt; are_appended(&mut out)?);
    Ok(())
}

// The reply `ok 1 2 .. a`.
fn counting() -> Reply {
    let mut words = ArrayVec::new();
    for word in 1..11 {
        if !words.is_full() {
            words.push(word);
        }
    }
    Reply::Ok(words)
}

fn is_written(alloc: Global, reply: Reply, text: &[u8]) -> Result<bool, Fail> {
    let mut out = Vec::new(alloc);
    write_reply(&reply, &mut out)?;
    Ok(out.as_slice() == text)
}

fn are_written(alloc: Global) -> Result<bool, Fail> {
    Ok(
        is_written(alloc, counting(), b"ok 1 2 3 4 5 6 7 8 9 a")?
            && is_written(alloc, Reply::Err(10, 0), b"err 10 0")?
            && is_written(alloc, Reply::Misplaced, b"misplaced")?,
    )
}

#[test]
fn writes_replies(rt: HostRuntime) -> Result<(), Fail> {
    assert!(rt; are_written(rt.alloc())?);
    Ok(())
}

// Whether no text is read. The last is empty.
fn none_is_read(texts: &str) -> bool {
    for text in texts.split(' ') {
        if decimal_from(text.as_bytes()).is_some() {
            return false;
        }
    }
    true
}

fn are_read() -> bool {
    decimal_from(b"0") == Some(0)
        && decimal_from(b"999999") == Some(999_999)
        && decimal_from(b"18446744073709551615") == Some(u64::MAX)
}

fn is_pushed(alloc: Global) -> Result<bool, Fail> {
    let mut out = Vec::new(alloc);
    push_decimal(&mut out, u64::MAX)?;
    Ok(out.as_slice() == b"18446744073709551615".as_slice())
}

#[test]
fn decimals(rt: HostRuntime) -> Result<(), Fail> {
    let others = "18446744073709551616 99999999999999999999 00 +1 a ";
    assert!(rt; are_read() && none_is_read(others) && is_pushed(rt.alloc())?);
    Ok(())
}

fn are_three(parts: &mut Parts<'_>) -> bool {
    is_next(parts, b"a")
        && is_next(parts, b"")
        && is_next(parts, b"bc")
        && parts.next_part().is_none()
}

fn is_next(parts: &mut Parts<'_>, text: &[u8]) -> bool {
    parts.next_part() == Some(text)
}

#[test]
fn parts(rt: HostRuntime) {
    assert!(rt; are_three(&mut Parts::of(b"a  bc")));
}
