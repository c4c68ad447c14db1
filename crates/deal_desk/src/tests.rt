mod clearing;
mod failing;
mod limits;
mod memory;
mod refused;
mod reports;

use crate::run::run;
use dh_base::{List, MemSink, MemSource};
use std::alloc::{AllocError, Global};
use std::process::Abort;
use std::test::Fail;

const USAGE: &str =
    "usage: deal_desk clear | rehearse | fair N SEED | ledger | seat | board | agent | live\n";

const PAYMENT: &str = "plain\nledger coins\nopen coins coin ann 5\ndeal d ann ben\nbegin\n\
register coins d ann\nescrow coins d ann coin 5\ntransfer coins d ann 0 ben coin 5\n\
start d ann\ncommit d ann\ncommit d ben\nclaim coins d 2\nclaim coins d 3\nabort d ben\n";

const PAYMENT_REPORT: &str = "6 done 1\n7 done 2\n8 done 3\n9 entered 0\n10 entered 1\n\
11 entered 2\n12 refused 3 Undecided 2\n13 settled commit\n14 refused 9 Decided 2 commit\n\
ledger coins\nfree coin ben 5\ndeal d commit\npaid d coin ben 5\n";

const BROKER_DEAL: &str = "deal broker\n\
house 0000000000000000000000000000000000000000000000000000000000000000\n\
party alice 1111111111111111111111111111111111111111111111111111111111111111\n\
party bob 2222222222222222222222222222222222222222222222222222222222222222\n\
party carol 3333333333333333333333333333333333333333333333333333333333333333\n\
step bob alice tickets ticket 1\nstep alice carol tickets ticket 1\n\
step carol alice coins coin 101\nstep alice bob coins coin 100\n";

const BROKER_CLEARING: &str = "deal broker\n\
id 96621027692430b7e9ba3a884207ab90eab3e64375502a43df9c5fd3e2db014b\n\
matrix alice bob coins coin 100\nmatrix alice carol tickets ticket 1\n\
matrix bob alice tickets ticket 1\nmatrix carol alice coins coin 101\n\
due alice coins coin 1\ndue bob coins coin 100\nneed bob tickets ticket 1\n\
need carol coins coin 101\ndue carol tickets ticket 1\n";

fn words(alloc: Global, word: &str) -> Result<Vec<String>, AllocError> {
    let mut words = Vec::new(alloc);
    words.push(String::from_str(alloc, word)?)?;
    Ok(words)
}

fn source(alloc: Global, bytes: &[u8], fails: &[u32]) -> Result<MemSource, AllocError> {
    let bytes = List::from_vec(bytes.to_vec(alloc)?);
    Ok(MemSource::new(bytes, List::from_vec(fails.to_vec(alloc)?)))
}

fn sink(alloc: Global, fails: &[u32]) -> Result<MemSink, AllocError> {
    Ok(MemSink::new(alloc, List::from_vec(fails.to_vec(alloc)?)))
}

/// The status of a run of the word over the text, and the sink with what is written.
fn run_over(alloc: Global, word: &str, text: &[u8]) -> Result<(u8, MemSink), Fail> {
    let words = words(alloc, word)?;
    let mut input = source(alloc, text, &[])?;
    let mut output = sink(alloc, &[])?;
    let status = run(alloc, &words, &mut input, &mut output);
    Ok((status, output))
}

/// Runs the word over the text, and checks the status and what is written.
fn check(
    rt: &impl Abort,
    alloc: Global,
    word: &str,
    text: &[u8],
    status: u8,
    written: &str,
) -> Result<(), Fail> {
    let (ended, output) = run_over(alloc, word, text)?;
    assert_eq!(rt; ended, status);
    assert_eq!(rt; output.written(), written.as_bytes());
    Ok(())
}

/// The bytes of these lines behind the text, each line ended by `|`.
fn lines_behind(alloc: Global, before: &str, lines: &str) -> Result<Vec<u8>, AllocError> {
    let mut text = before.as_bytes().to_vec(alloc)?;
    for byte in lines.as_bytes() {
        text.push(if *byte == b'|' { b'\n' } else { *byte })?;
    }
    Ok(text)
}

/// Checks that the lines of each row, behind the text, are refused with the row's line and status
/// 2. Behind each line of a row stands `|`, and the answer behind an arrow.
fn check_refused(
    rt: &impl Abort,
    alloc: Global,
    word: &str,
    before: &str,
    table: &str,
) -> Result<(), Fail> {
    for row in table.lines() {
        let (lines, answer) = row.split_once(" => ").ok_or("no answer")?;
        let text = lines_behind(alloc, before, lines)?;
        let (status, output) = run_over(alloc, word, text.as_slice())?;
        let written = format!(in alloc; "{answer}\n")?;
        assert_eq!(rt; status, 2, "{lines}");
        assert_eq!(rt; output.written(), written.as_bytes(), "{lines}");
    }
    Ok(())
}
