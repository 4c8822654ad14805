//! The whole program on a runtime of the test's: words, files, devices.

use crate::runtime::{TestFile, TestRuntime};
use run_commands::run;
use std::alloc::Global;
use std::cell::RefCell;
use std::io::ErrorKind;
use std::process::Abort;
use std::sync::Wait;
use std::test::Fail;
use std::thread::Threads;

const HISTORY: &[u8] = b"rmh1 4 1\nc 0 0 c4000151 1000\nr 0 0 ok\n";

const CERTIFICATE: &[u8] = b"k 0 0\n";

/// A file that can be read so often.
pub fn file(bytes: &'static [u8], reads: usize) -> Option<TestFile> {
    Some(TestFile {
        bytes,
        reads,
        failure: ErrorKind::Other,
    })
}

/// A file for which no memory is left once it was read so often.
pub fn file_too_large(bytes: &'static [u8], reads: usize) -> Option<TestFile> {
    Some(TestFile {
        bytes,
        reads,
        failure: ErrorKind::OutOfMemory,
    })
}

/// A runtime on which there is a history and its certificate, and all goes well.
pub fn runtime(alloc: Global, words: &'static str) -> TestRuntime {
    TestRuntime {
        alloc,
        words,
        history: file(HISTORY, 100),
        certificate: file(CERTIFICATE, 100),
        scenario: None,
        is_full: false,
        printed: RefCell::new(String::new(alloc)),
        told: RefCell::new(String::new(alloc)),
    }
}

/// What the program ends with and prints, as `status|standard output|standard error`.
pub fn outcome<T: Threads + Wait + Sync>(
    threads: &T,
    runtime: TestRuntime,
) -> Result<String, Fail> {
    let status = run(&runtime, threads);
    let TestRuntime {
        alloc,
        printed,
        told,
        ..
    } = runtime;
    let (printed, told) = (printed.into_inner(), told.into_inner());
    Ok(format!(in alloc; "{status}|{printed}|{told}")?)
}

// Each line is words that the program refuses; the first has none, and no name of the program either.
const REFUSED: &str = "
rmmcheck
rmmcheck check
rmmcheck check h
rmmcheck check h c c
rmmcheck h c
rmmcheck judge h c
rmmcheck help
rmmcheck help check
rmmcheck --help
rmmcheck -h
rmmcheck --version
rmmcheck -V
rmmcheck check h c --help
rmmcheck check -h c
rmmcheck check --fast h c
rmmcheck run
rmmcheck run s s
rmmcheck run -s
rmmcheck run --help
rmmcheck run s --help
rmmcheck help run
rmmcheck threads
rmmcheck threads s s
rmmcheck threads -s
rmmcheck threads --help
rmmcheck threads --fast s
rmmcheck help threads
rmmcheck run threads s
rmmcheck s
";

// The words of each outcome, which it takes.
const TAKEN: &str = "\
rmmcheck check h c -> 0|yes 1\n|;\
rmmcheck check -- h c -> 0|yes 1\n|;\
rmmcheck check help c -> 3||rmmcheck: cannot read help\n;\
rmmcheck check -- -h c -> 3||rmmcheck: cannot read -h\n;\
rmmcheck check  c -> 3||rmmcheck: cannot read \n;\
rmmcheck run x -> 3||rmmcheck: cannot read x\n;\
rmmcheck run help -> 3||rmmcheck: cannot read help\n;\
rmmcheck run -- -x -> 3||rmmcheck: cannot read -x\n;\
rmmcheck threads x -> 3||rmmcheck: cannot read x\n;\
rmmcheck threads -- --help -> 3||rmmcheck: cannot read --help\n;\
rmmcheck threads  -> 3||rmmcheck: cannot read \n";

// The program ends so on these words, where all goes well.
fn expect_words<R: Abort + AllocGlobal + Threads + Wait + Sync>(
    rt: &R,
    words: &'static str,
    expected: &str,
) -> Result<(), Fail> {
    let line = outcome(rt, runtime(rt.alloc(), words))?;
    assert!(rt; line.as_str() == expected, "{line} for {words}");
    Ok(())
}

#[test]
fn words_of_the_program(rt: HostRuntime) -> Result<(), Fail> {
    for words in REFUSED.lines() {
        expect_words(&rt, words, "2||rmmcheck: arguments\n")?;
    }
    for row in TAKEN.split(';') {
        let (words, expected) = row.split_once(" -> ").ok_or("a row without an outcome")?;
        expect_words(&rt, words, expected)?;
    }
    Ok(())
}

// A check of these files ends so.
fn expect_outcome<R: Abort + AllocGlobal + Threads + Wait + Sync>(
    rt: &R,
    history: Option<TestFile>,
    certificate: Option<TestFile>,
    is_full: bool,
    expected: &str,
) -> Result<(), Fail> {
    let mut runtime = runtime(rt.alloc(), "rmmcheck check h c");
    runtime.history = history;
    runtime.certificate = certificate;
    runtime.is_full = is_full;
    let line = outcome(rt, runtime)?;
    assert!(rt; line.as_str() == expected, "{line} in place of {expected}");
    Ok(())
}

// Both files are opened before either is read.
#[test]
fn first_fault_ends_the_program(rt: HostRuntime) -> Result<(), Fail> {
    let (whole_history, whole_certificate) = (file(HISTORY, 100), file(CERTIFICATE, 100));
    let (torn_history, torn_certificate) = (file(HISTORY, 2), file(CERTIFICATE, 1));
    let (no_history, no_certificate) = (
        "3||rmmcheck: cannot read h\n",
        "3||rmmcheck: cannot read c\n",
    );
    expect_outcome(&rt, None, None, true, no_history)?;
    expect_outcome(&rt, torn_history, None, true, no_certificate)?;
    expect_outcome(&rt, torn_history, torn_certificate, true, no_history)?;
    expect_outcome(&rt, whole_history, torn_certificate, true, no_certificate)?;
    expect_outcome(
        &rt,
        whole_history,
        whole_certificate,
        true,
        "3||rmmcheck: cannot write\n",
    )
}

#[test]
fn refused_memory_is_reported(rt: HostRuntime) -> Result<(), Fail> {
    let (whole_history, whole_certificate) = (file(HISTORY, 100), file(CERTIFICATE, 100));
    let told = "3||rmmcheck: no memory\n";
    expect_outcome(
        &rt,
        file_too_large(HISTORY, 0),
        whole_certificate,
        false,
        told,
    )?;
    expect_outcome(
        &rt,
        file_too_large(HISTORY, 3),
        whole_certificate,
        false,
        told,
    )?;
    expect_outcome(
        &rt,
        whole_history,
        file_too_large(CERTIFICATE, 1),
        false,
        told,
    )
}

#[test]
fn status_of_the_verdict(rt: HostRuntime) -> Result<(), Fail> {
    let (whole_history, whole_certificate) = (file(HISTORY, 100), file(CERTIFICATE, 100));
    let empty = file(b"", 100);
    expect_outcome(&rt, whole_history, whole_certificate, false, "0|yes 1\n|")?;
    expect_outcome(&rt, whole_history, empty, false, "1|no 1 missing 0 0\n|")?;
    expect_outcome(
        &rt,
        whole_history,
        file(b"k 0\n", 100),
        false,
        "2|fault certificate 1\n|",
    )?;
    expect_outcome(&rt, empty, whole_certificate, false, "2|fault history 1\n|")
}
