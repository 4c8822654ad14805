//! `judge` over devices of the test's, each of which fails at one of its calls.

ghost use Rattle.std.specs.Prelude.{◌<◌, Some};
ghost use Rattle.devices.specs.Sink.{prepared_room};

use crate::runtime::TestFile;
use checker::Verdict;
use devices::{FileSource, WriteError};
use run_commands::{JudgeFault, Sink, judge};
use std::alloc::{AllocError, Global};
use std::io::ErrorKind;

const HISTORY: &[u8] = b"rmh1 4 1\nc 0 0 c4000151 1000\nr 0 0 ok\n";

// Six pieces and the end.
const HISTORY_READS: usize = 7;

const CERTIFICATE: &[u8] = b"k 0 0\n";

// One piece and the end.
const CERTIFICATE_READS: usize = 2;

const LINE: &[u8] = b"yes 1\n";

// More than either takes.
const WHOLE: usize = 100;

// A sink that takes a few bytes a call, and fails after so many calls.
#[derive(Drop)]
struct TornSink {
    taken: Vec<u8>,
    most: usize,
    calls: usize,
    failures: u64,
}

impl TornSink {
    fn new(alloc: Global, most: usize, calls: usize) -> TornSink {
        TornSink {
            taken: Vec::new(alloc),
            most,
            calls,
            failures: 0,
        }
    }
}

impl Sink for TornSink {
    ghost taken = { λ sink. sink.taken.items };

    ghost contents = { λ sink. Some sink.taken.items };

    ghost room = { λ sink. prepared_room sink.taken.len sink.taken.cap sink.failures };

    ghost failures = { λ sink. sink.failures };

    fn make_room(&mut self, count: usize) -> Result<(), AllocError> {
        if count > 0 && self.failures == u64::MAX {
            return Err(AllocError);
        }
        self.taken.reserve(count)
    }

    fn write(&mut self, bytes: &[u8]) -> Result<usize, WriteError> {
        if self.calls == 0 {
            self.failures += 1;
            return Err(WriteError);
        }
        self.calls -= 1;
        let count = bytes.len().min(self.most.max(1));
        let _ = self.taken.extend_from_slice(&bytes[..count]);
        Ok(count)
    }
}

// A text that fails once it was read so often.
fn source(bytes: &'static [u8], reads: usize) -> FileSource<TestFile> {
    FileSource::new(TestFile {
        bytes,
        reads,
        failure: ErrorKind::Other,
    })
}

// A judgement over a history and a certificate that are read so often before they fail, and what the sink took.
fn judged(alloc: Global, history: usize, certificate: usize, mut sink: TornSink) -> Outcome {
    let mut history = source(HISTORY, history);
    let mut certificate = source(CERTIFICATE, certificate);
    Outcome {
        result: judge(alloc, &mut history, &mut certificate, &mut sink),
        failures: sink.failures,
        taken: sink.taken,
    }
}

#[derive(Drop)]
struct Outcome {
    result: Result<Verdict, JudgeFault>,
    failures: u64,
    taken: Vec<u8>,
}

impl Outcome {
    // Whether the sink failed so often, and has taken this.
    fn left(&self, failures: u64, taken: &[u8]) -> bool {
        self.failures == failures && self.taken.as_slice() == taken
    }
}

// Whether the history is named where it fails after so many reads.
fn blames_history(alloc: Global, reads: usize) -> bool {
    let ended = judged(alloc, reads, 0, TornSink::new(alloc, 1, 0));
    matches!(ended.result, Err(JudgeFault::ReadHistory)) && ended.left(0, b"")
}

// The same for the certificate.
fn blames_certificate(alloc: Global, reads: usize) -> bool {
    let ended = judged(alloc, WHOLE, reads, TornSink::new(alloc, 1, 0));
    matches!(ended.result, Err(JudgeFault::ReadCertificate)) && ended.left(0, b"")
}

#[test]
fn source_that_fails_is_named(rt: HostRuntime) {
    for reads in 0..HISTORY_READS {
        assert!(rt; blames_history(rt.alloc(), reads), "after {reads} reads");
    }
    for reads in 0..CERTIFICATE_READS {
        assert!(rt;
            blames_certificate(rt.alloc(), reads),
            "after {reads} reads"
        );
    }
}

// Whether a sink that takes so many bytes a call has taken this beginning of the line when it fails.
fn takes_beginning(alloc: Global, most: usize, calls: usize, beginning: &[u8]) -> bool {
    let ended = judged(alloc, WHOLE, WHOLE, TornSink::new(alloc, most, calls));
    matches!(ended.result, Err(JudgeFault::Write)) && ended.left(1, beginning)
}

// Whether that is so at each of its calls.
fn takes_beginnings(alloc: Global, most: usize) -> bool
    requires { 0 < most }
{
    for taken in 0..LINE.len() {
        let is_one = taken % most == 0;
        if is_one && !takes_beginning(alloc, most, taken / most, &LINE[..taken]) {
            return false;
        }
    }
    true
}

// Whether it has taken the line where it fails after that.
fn takes_line(alloc: Global, most: usize) -> bool
    requires { 0 < most }
{
    let calls = LINE.len().div_ceil(most);
    let ended = judged(alloc, WHOLE, WHOLE, TornSink::new(alloc, most, calls));
    matches!(ended.result, Ok(Verdict::Yes(1))) && ended.left(0, LINE)
}

#[test]
fn sink_that_fails_has_taken_a_beginning(rt: HostRuntime) {
    for most in 1..=LINE.len() {
        let is_so = takes_beginnings(rt.alloc(), most) && takes_line(rt.alloc(), most);
        assert!(rt; is_so, "{most} bytes a call");
    }
}
