//! Prints the functions, a line each: the number, who gives the command, the count of its words, and the names of the function and of
//! its words, of which the last stands for all words that are left.
//! The scripts of `bench/` and `tests/` read what is expected of it, the file `stdout` beside this crate, which `tests/quick` compares
//! with docs/PROFILE.md; so a run of it says that the code has the functions of the profile.
//! It depends on the crates that know functions and callers, and nothing depends on it.
#![tactic(auto)]

use command_words::{Caller, caller_for};
use rmm_spec::FunctionId;
use std::io;

fn main(rt: HostRuntime) -> io::Result<()> {
    for function in FunctionId::all() {
        print_row(&rt, function)?;
    }
    Ok(())
}

fn print_row<R: Print>(rt: &R, function: FunctionId) -> io::Result<()> {
    let row = function.row();
    let number = row.number;
    let caller = caller_text(caller_for(function));
    let words = row.words;
    let names = row.names;
    println!(rt; "{number:08x} {caller} {words} {names}")
}

fn caller_text(caller: Caller) -> &'static str {
    match caller {
        Caller::Host => "host",
        Caller::Realm => "realm",
        Caller::Rec => "rec",
    }
}
