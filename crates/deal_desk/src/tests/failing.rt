//! Each read and each write fails in turn.

use super::{BROKER_CLEARING, BROKER_DEAL, PAYMENT, PAYMENT_REPORT, USAGE, sink, source, words};
use crate::run::run;
use dh_base::{Failed, MemSink, Outside, Sink};
use std::alloc::Global;
use std::process::Abort;
use std::test::Fail;

/// The most bytes that a narrow sink takes at a call.
const MOST_TAKEN: usize = 8;

/// A sink in memory that takes a few bytes at a call.
#[derive(Drop)]
struct NarrowSink {
    sink: MemSink,
}

impl Outside for NarrowSink {
    ghost use Rattle.dh_base.specs.Memory.{sink_seen};

    ghost seen = { λ s. sink_seen s.sink };
}

impl Sink for NarrowSink {
    fn write(&mut self, piece: &[u8]) -> Result<usize, Failed> {
        let taken = piece.len().min(MOST_TAKEN);
        self.sink.write(&piece[..taken])
    }
}

/// Checks a run that makes so many reads, none of which fails, and runs in which each one does.
fn check_reads(
    rt: &impl Abort,
    alloc: Global,
    word: &str,
    text: &[u8],
    reads: u32,
    written: &str,
) -> Result<(), Fail> {
    let words = words(alloc, word)?;
    for read in 0..reads {
        let mut input = source(alloc, text, &[read])?;
        let mut output = sink(alloc, &[])?;
        assert_eq!(rt;
            run(alloc, &words, &mut input, &mut output),
            3,
            "read {read}"
        );
        assert_eq!(rt; input.faults(), 1);
        assert_eq!(rt; output.written(), b"".as_slice());
    }
    let mut input = source(alloc, text, &[reads])?;
    let mut output = sink(alloc, &[])?;
    assert_eq!(rt; run(alloc, &words, &mut input, &mut output), 0);
    assert_eq!(rt; output.written(), written.as_bytes());
    Ok(())
}

#[test]
fn a_failing_read_has_status_3(rt: HostRuntime) -> Result<(), Fail> {
    let alloc = rt.alloc();
    let comment = vec![in alloc; b'#'; 10000]?;
    let mut script = PAYMENT.as_bytes().to_vec(alloc)?;
    script.extend_from_slice(comment.as_slice())?;
    script.push(b'\n')?;
    check_reads(&rt, alloc, "rehearse", script.as_slice(), 4, PAYMENT_REPORT)?;
    let deal = BROKER_DEAL.as_bytes();
    check_reads(&rt, alloc, "clear", deal, 2, BROKER_CLEARING)
}

/// The status of a run with its output to the narrow sink.
fn run_narrow(alloc: Global, word: &str, input: &str, output: &mut NarrowSink) -> Result<u8, Fail> {
    let words = words(alloc, word)?;
    let mut input = source(alloc, input.as_bytes(), &[])?;
    Ok(run(alloc, &words, &mut input, output))
}

/// Checks a run in which no write fails, and runs in which each one does.
fn check_writes(
    rt: &impl Abort,
    alloc: Global,
    word: &str,
    input: &str,
    status: u8,
    text: &str,
) -> Result<(), Fail> {
    let mut front = Vec::new(alloc);
    for (write, piece) in (0..u32::MAX).zip(text.as_bytes().chunks(MOST_TAKEN)) {
        let mut output = NarrowSink {
            sink: sink(alloc, &[write])?,
        };
        assert_eq!(rt;
            run_narrow(alloc, word, input, &mut output)?,
            4,
            "write {write}"
        );
        assert_eq!(rt; output.sink.faults(), 1);
        assert_eq!(rt; output.sink.written(), front.as_slice());
        front.extend_from_slice(piece)?;
    }
    let mut output = NarrowSink {
        sink: sink(alloc, &[])?,
    };
    assert_eq!(rt; run_narrow(alloc, word, input, &mut output)?, status);
    assert_eq!(rt; output.sink.written(), text.as_bytes());
    Ok(())
}

#[test]
fn a_failing_write_has_status_4(rt: HostRuntime) -> Result<(), Fail> {
    let alloc = rt.alloc();
    check_writes(&rt, alloc, "rehearse", PAYMENT, 0, PAYMENT_REPORT)?;
    check_writes(
        &rt,
        alloc,
        "rehearse",
        "house\n",
        2,
        "line 1 rule 12 NotBuilt\n",
    )?;
    check_writes(&rt, alloc, "clear", BROKER_DEAL, 0, BROKER_CLEARING)?;
    let fault = "refused 1 BadLine 2\n";
    check_writes(&rt, alloc, "clear", "deal broker\n", 2, fault)?;
    check_writes(&rt, alloc, "help", PAYMENT, 1, USAGE)
}
