//! What is written for scripts that break no rule, and for other words.

use super::{PAYMENT, PAYMENT_REPORT, USAGE, check, sink, source, words};
use crate::run::run;
use std::test::Fail;

const PLAIN_BROKER: &str =
    "# Alice buys Bob's ticket for 100 coins and sells it to Carol for 101.\nplain\n\
ledger coins\nledger tickets\nopen coins coin carol 101\nopen tickets ticket bob 1\n\
deal broker alice bob carol\nbegin\nregister coins broker alice\n\
register tickets broker alice\nescrow tickets broker bob ticket 1\n\
escrow coins broker carol coin 101\ntransfer tickets broker bob 0 alice ticket 1\n\
transfer tickets broker alice 0 carol ticket 1\n\
transfer coins broker carol 0 alice coin 101\ntransfer coins broker alice 0 bob coin 100\n\
start broker alice\ncommit broker alice\ncommit broker bob\ncommit broker carol\n\
claim coins broker 4\nclaim tickets broker 4\n";

const PLAIN_BROKER_REPORT: &str =
    "9 done 1\n10 done 1\n11 done 2\n12 done 2\n13 done 3\n14 done 4\n15 done 3\n16 done 4\n\
17 entered 0\n18 entered 1\n19 entered 2\n20 entered 3\n21 settled commit\n\
22 settled commit\nledger coins\nfree coin alice 1\nfree coin bob 100\n\
deal broker commit\npaid broker coin alice 1\npaid broker coin bob 100\nledger tickets\n\
free ticket carol 1\ndeal broker commit\npaid broker ticket carol 1\n";

const PLAIN_BROKER_UNPAID: &str =
    "# Carol never pays for the ticket, so Bob votes to abort and gets it back.\nplain\n\
ledger coins\nledger tickets\nopen coins coin carol 101\nopen tickets ticket bob 1\n\
deal broker alice bob carol\nbegin\nregister coins broker alice\n\
register tickets broker alice\nescrow tickets broker bob ticket 1\n\
transfer tickets broker bob 0 alice ticket 1\n\
transfer tickets broker alice 0 carol ticket 1\ntransfer coins broker alice 0 bob coin 100\n\
start broker alice\ncommit broker alice\nabort broker bob\ncommit broker carol\n\
claim tickets broker 3\nclaim coins broker 3\n";

const PLAIN_BROKER_UNPAID_REPORT: &str =
    "9 done 1\n10 done 1\n11 done 2\n12 done 3\n13 done 4\n14 refused 13 Short 0\n\
15 entered 0\n16 entered 1\n17 entered 2\n18 refused 9 Decided 2 abort\n\
19 settled abort\n20 settled abort\nledger coins\nfree coin carol 101\ndeal broker abort\n\
ledger tickets\nfree ticket bob 1\ndeal broker abort\npaid broker ticket bob 1\n";

/// Scripts that say nothing, or in which nothing happens.
const QUIET: [(&str, &str); 7] = [
    ("", ""),
    ("\n", ""),
    ("#\n\n# plain \t\u{e9}\r\n", ""),
    ("plain\nbegin\n", ""),
    ("\nplain\n# \nbegin\n\n#\n", ""),
    (
        "plain\nledger a\nopen a a p 5\ndeal d p q\nbegin\n",
        "ledger a\nfree a p 5\n",
    ),
    (
        "plain\nledger a234567890123456\nbegin\n",
        "ledger a234567890123456\n",
    ),
];

#[test]
fn a_script_has_its_report(rt: HostRuntime) -> Result<(), Fail> {
    let told = [
        (PAYMENT, PAYMENT_REPORT),
        (PLAIN_BROKER, PLAIN_BROKER_REPORT),
        (PLAIN_BROKER_UNPAID, PLAIN_BROKER_UNPAID_REPORT),
    ];
    for (script, report) in told.iter().chain(QUIET.iter()) {
        check(&rt, rt.alloc(), "rehearse", script.as_bytes(), 0, report)?;
    }
    Ok(())
}

#[test]
fn other_words_have_the_usage_line(rt: HostRuntime) -> Result<(), Fail> {
    for word in [
        "",
        "rehearsal",
        "Rehearse",
        "rehearse ",
        "clea",
        "clears",
        "Clear",
        " clear",
    ] {
        check(&rt, rt.alloc(), word, PAYMENT.as_bytes(), 1, USAGE)?;
    }
    Ok(())
}

#[test]
fn a_command_has_no_further_word(rt: HostRuntime) -> Result<(), Fail> {
    let alloc = rt.alloc();
    for word in ["clear", "rehearse"] {
        let mut words = words(alloc, word)?;
        words.push(String::from_str(alloc, word)?)?;
        let mut input = source(alloc, PAYMENT.as_bytes(), &[])?;
        let mut output = sink(alloc, &[])?;
        assert_eq!(rt; run(alloc, &words, &mut input, &mut output), 1);
        assert_eq!(rt; output.written(), USAGE.as_bytes());
    }
    Ok(())
}

#[test]
fn no_word_has_the_usage_line(rt: HostRuntime) -> Result<(), Fail> {
    let alloc = rt.alloc();
    let words = Vec::new(alloc);
    let mut input = source(alloc, PAYMENT.as_bytes(), &[])?;
    let mut output = sink(alloc, &[])?;
    assert_eq!(rt; run(alloc, &words, &mut input, &mut output), 1);
    assert_eq!(rt; output.written(), USAGE.as_bytes());
    Ok(())
}
