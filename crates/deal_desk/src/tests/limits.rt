//! Scripts at a limit and one past it.

use super::check;
use std::alloc::Global;
use std::process::Abort;
use std::test::Fail;

/// Checks that the script is read, and has this report.
fn is_told(rt: &impl Abort, alloc: Global, script: &str, report: &str) -> Result<(), Fail> {
    check(rt, alloc, "rehearse", script.as_bytes(), 0, report)
}

/// Checks that the script is refused with this line.
fn is_refused(rt: &impl Abort, alloc: Global, script: &str, line: &str) -> Result<(), Fail> {
    check(rt, alloc, "rehearse", script.as_bytes(), 2, line)
}

/// So many empty lines.
fn empty_lines(alloc: Global, lines: usize) -> Result<String, Fail> {
    let mut script = String::new(alloc);
    for _ in 0..lines {
        script.push_str("\n")?;
    }
    Ok(script)
}

#[test]
fn twenty_thousand_lines_may_say_something(rt: HostRuntime) -> Result<(), Fail> {
    let alloc = rt.alloc();
    let before = empty_lines(alloc, 19998)?;
    let most = format!(in alloc; "{before}plain\nbegin\n")?;
    is_told(&rt, alloc, most.as_str(), "")?;
    let passed_over = format!(in alloc; "{most}\n# more\n")?;
    is_told(&rt, alloc, passed_over.as_str(), "")?;
    let many = format!(in alloc; "{before}\nplain\nbegin\n")?;
    is_refused(&rt, alloc, many.as_str(), "line 20001 rule 9 TooMany\n")?;
    let no_begin = format!(in alloc; "{before}plain\n\n\n")?;
    is_refused(&rt, alloc, no_begin.as_str(), "line 20002 rule 1 BadLine\n")
}

/// A script of so many ledgers.
fn ledgers(alloc: Global, ledgers: u32) -> Result<String, Fail> {
    let mut script = String::from_str(alloc, "plain\n")?;
    for ledger in 0..ledgers {
        script.push_str(format!(in alloc; "ledger l{ledger}\n")?.as_str())?;
    }
    script.push_str("begin\n")?;
    Ok(script)
}

#[test]
fn a_script_has_8_ledgers(rt: HostRuntime) -> Result<(), Fail> {
    let alloc = rt.alloc();
    let report =
        "ledger l0\nledger l1\nledger l2\nledger l3\nledger l4\nledger l5\nledger l6\nledger l7\n";
    is_told(&rt, alloc, ledgers(alloc, 8)?.as_str(), report)?;
    let many = ledgers(alloc, 9)?;
    is_refused(&rt, alloc, many.as_str(), "line 10 rule 9 TooMany\n")
}

/// The declarations of 64 deals of four parties each, all of them different.
fn deals(alloc: Global) -> Result<String, Fail> {
    let mut script = String::from_str(alloc, "plain\n")?;
    for n in 0..64 {
        script.push_str(format!(in alloc; "deal d{n} p{n} q{n} r{n} s{n}\n")?.as_str())?;
    }
    Ok(script)
}

#[test]
fn a_script_has_64_deals_and_256_parties(rt: HostRuntime) -> Result<(), Fail> {
    let alloc = rt.alloc();
    let deals = deals(alloc)?;
    let most = format!(in alloc; "{deals}ledger a\nopen a coin p0 1\nbegin\n")?;
    is_told(&rt, alloc, most.as_str(), "ledger a\nfree coin p0 1\n")?;
    let many_deals = format!(in alloc; "{deals}deal e p0 q0\nbegin\n")?;
    is_refused(&rt, alloc, many_deals.as_str(), "line 66 rule 9 TooMany\n")?;
    let many_parties = format!(in alloc; "{deals}ledger a\nopen a coin t 1\nbegin\n")?;
    is_refused(
        &rt,
        alloc,
        many_parties.as_str(),
        "line 67 rule 9 TooMany\n",
    )
}

#[test]
fn a_deal_has_16_parties(rt: HostRuntime) -> Result<(), Fail> {
    let alloc = rt.alloc();
    let deal = "plain\ndeal d a0 a1 a2 a3 a4 a5 a6 a7 a8 a9 b0 b1 b2 b3 b4 b5";
    let most = format!(in alloc; "{deal}\nbegin\n")?;
    is_told(&rt, alloc, most.as_str(), "")?;
    let many = format!(in alloc; "{deal} b6\nbegin\n")?;
    is_refused(&rt, alloc, many.as_str(), "line 2 rule 9 TooMany\n")
}

/// Lines for the assets 1000 to 2023, with the asset's number between the two texts.
fn of_assets(alloc: Global, before: &str, after: &str) -> Result<String, Fail> {
    let mut lines = String::new(alloc);
    for asset in 1000..2024 {
        lines.push_str(format!(in alloc; "{before}{asset}{after}\n")?.as_str())?;
    }
    Ok(lines)
}

#[test]
fn a_script_has_1024_opening_rows(rt: HostRuntime) -> Result<(), Fail> {
    let alloc = rt.alloc();
    let rows = of_assets(alloc, "open a x", " p 1")?;
    let free = of_assets(alloc, "free x", " p 1")?;
    let most = format!(in alloc; "plain\nledger a\nledger b\n{rows}begin\n")?;
    let report = format!(in alloc; "ledger a\n{free}ledger b\n")?;
    is_told(&rt, alloc, most.as_str(), report.as_str())?;
    let many = format!(in alloc; "plain\nledger a\nledger b\n{rows}open a y p 1\nbegin\n")?;
    is_refused(&rt, alloc, many.as_str(), "line 1028 rule 7 BadOpening\n")?;
    let spread = format!(in alloc; "plain\nledger a\nledger b\n{rows}open b y p 1\nbegin\n")?;
    is_refused(&rt, alloc, spread.as_str(), "line 1028 rule 9 TooMany\n")
}

#[test]
fn an_asset_opens_with_less_than_2_to_the_power_of_63(rt: HostRuntime) -> Result<(), Fail> {
    let alloc = rt.alloc();
    let most = "plain\nledger a\nopen a x p 9223372036854775806\nopen a x q 1\nbegin\n";
    let report = "ledger a\nfree x p 9223372036854775806\nfree x q 1\n";
    is_told(&rt, alloc, most, report)?;
    let many = "plain\nledger a\nopen a x p 9223372036854775807\nopen a x q 1\nbegin\n";
    is_refused(&rt, alloc, many, "line 4 rule 7 BadOpening\n")
}

#[test]
fn a_script_has_2097152_bytes(rt: HostRuntime) -> Result<(), Fail> {
    let alloc = rt.alloc();
    let mut comment = vec![in alloc; b'#'; 2097151]?;
    comment.push(b'\n')?;
    check(&rt, alloc, "rehearse", comment.as_slice(), 0, "")?;
    comment.push(b'\n')?;
    let too_large = "line 0 rule 11 TooLarge\n";
    check(&rt, alloc, "rehearse", comment.as_slice(), 2, too_large)?;
    let mut bad = vec![in alloc; b'x'; 2097152]?;
    let bad_line = "line 1 rule 1 BadLine\n";
    check(&rt, alloc, "rehearse", bad.as_slice(), 2, bad_line)?;
    bad.push(b'x')?;
    check(&rt, alloc, "rehearse", bad.as_slice(), 2, too_large)
}
