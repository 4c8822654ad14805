//! Asks the public calls about each file of the folder where it runs, and prints what they answer. Inputs and answers come from
//! outside and never from an output: answers to the questions of a `.txt` stand in it, those to other files in `stdout` beside this crate.
//! Kinds of files: `.txt` has texts that are judged and explained, `.history` is searched for an order, `.events` is merged, `.toml` is played.
//! An answer that differs from that of its `.txt` is printed with it, and the status is then 1. No clause says more than that it is safe.
//! It stands on the crates that read, judge, explain, find, merge and play, and nothing on it.
#![tactic(auto)]

mod files;
mod orders;
mod outcomes;
mod recordings;
mod runs;
mod texts;

use crate::outcomes::{Kind, print_outcomes};
use anyhow::{Result, bail};

fn main(rt: HostRuntime) -> Result<()> {
    let are_right = texts::judge_files(&rt)?;
    print_outcomes(&rt, Kind::Order)?;
    print_outcomes(&rt, Kind::Merge)?;
    print_outcomes(&rt, Kind::Run)?;
    if are_right {
        Ok(())
    } else {
        bail!("an answer differs")
    }
}
