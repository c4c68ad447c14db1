//! Runs in which an allocation may be refused, as where the tests are tried with one that fails.

use super::{BROKER_CLEARING, BROKER_DEAL, PAYMENT, PAYMENT_REPORT, USAGE, sink, source, words};
use crate::run::run;
use std::alloc::Global;
use std::process::Abort;

/// Checks that a run of the word over the script has the status and writes the text, or ends with
/// status 7 and writes nothing. The sink may fail for want of memory too.
fn check_ending(rt: &impl Abort, alloc: Global, word: &str, script: &str, status: u8, text: &str) {
    let Ok(words) = words(alloc, word) else {
        return;
    };
    let Ok(mut input) = source(alloc, script.as_bytes(), &[]) else {
        return;
    };
    let Ok(mut output) = sink(alloc, &[]) else {
        return;
    };
    let ended = run(alloc, &words, &mut input, &mut output);
    let (wanted, written) = match (ended, output.faults()) {
        (7, _) => (7, ""),
        (_, 0) => (status, text),
        _ => (4, ""),
    };
    assert_eq!(rt; ended, wanted);
    assert_eq!(rt; output.written(), written.as_bytes());
}

#[test]
fn a_report_is_whole_or_memory_ran_out(rt: HostRuntime) {
    check_ending(&rt, rt.alloc(), "rehearse", PAYMENT, 0, PAYMENT_REPORT);
}

#[test]
fn a_refused_line_is_whole_or_memory_ran_out(rt: HostRuntime) {
    let script =
        "plain\nledger coins\nopen coins coin ann 5\ndeal d ann ben\nbegin\nclaim coins d 1\n";
    check_ending(
        &rt,
        rt.alloc(),
        "rehearse",
        script,
        2,
        "line 6 rule 10 OutOfRange\n",
    );
}

#[test]
fn a_usage_line_is_whole_or_memory_ran_out(rt: HostRuntime) {
    check_ending(&rt, rt.alloc(), "", PAYMENT, 1, USAGE);
}

#[test]
fn a_clearing_is_whole_or_memory_ran_out(rt: HostRuntime) {
    check_ending(&rt, rt.alloc(), "clear", BROKER_DEAL, 0, BROKER_CLEARING);
}

#[test]
fn a_fault_of_a_deal_is_whole_or_memory_ran_out(rt: HostRuntime) {
    check_ending(
        &rt,
        rt.alloc(),
        "clear",
        "deal broker\n",
        2,
        "refused 1 BadLine 2\n",
    );
}
