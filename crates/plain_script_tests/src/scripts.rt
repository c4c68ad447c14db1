use dh_base::{Name, NoMemory};
use plain_script::{Declaration, Event, read_script};
use script_lines::{RefusedLine, ScriptHalt};
use std::alloc::{AllocError, Global};
use std::process::Abort;
use std::test::Fail;

/// What a script is refused for, and nothing where it is read.
fn refusal(alloc: Global, script: &[u8]) -> Result<Option<RefusedLine>, NoMemory> {
    match read_script(alloc, script) {
        Ok(_) => Ok(None),
        Err(ScriptHalt::Refused { line, rule }) => Ok(Some(RefusedLine { line, rule })),
        Err(ScriptHalt::NoMemory) => Err(NoMemory),
    }
}

/// The refusal as it is told, or `read`.
fn told(alloc: Global, script: &[u8]) -> Result<String, Fail> {
    match refusal(alloc, script)? {
        Some(refused) => Ok(format!(in alloc; "{refused}")?),
        None => Ok(format!(in alloc; "read")?),
    }
}

/// The bytes of a script, where `|` stands for a line feed in the lines.
fn script_of(alloc: Global, before: &str, lines: &str, after: &str) -> Result<Vec<u8>, AllocError> {
    let mut script = before.as_bytes().to_vec(alloc)?;
    for c in lines.as_bytes() {
        script.push(if *c == b'|' { b'\n' } else { *c })?;
    }
    script.extend_from_slice(after.as_bytes())?;
    Ok(script)
}

/// Reads the script of each line of the table, in which its answer stands behind an arrow.
fn check(
    rt: &impl Abort,
    alloc: Global,
    before: &str,
    table: &str,
    after: &str,
) -> Result<(), Fail> {
    for case in table.lines() {
        let (lines, answer) = case.split_once(" => ").ok_or("no answer")?;
        let script = script_of(alloc, before, lines, after)?;
        let got = told(alloc, script.as_slice())?;
        assert!(rt; got.as_str() == answer, "{lines}: {got}");
    }
    Ok(())
}

const HEADS: &str = " => read
|# nothing|| => read
# \u{e9}\t\r|#| => read
plain|begin| => read
#|plain||# declared|ledger coins||begin|#| => read
plain| => line 2 rule 1 BadLine
plain|ledger coins||#| => line 5 rule 1 BadLine
plain => line 1 rule 1 BadLine
plain|begin => line 2 rule 1 BadLine
plain|begin|# => line 3 rule 1 BadLine
begin| => line 1 rule 1 BadLine
ledger coins| => line 1 rule 1 BadLine
plain|plain|begin| => line 2 rule 1 BadLine
plain|begin|begin| => line 3 rule 1 BadLine
plain|begin|ledger coins| => line 3 rule 1 BadLine
house| => line 1 rule 12 NotBuilt
|# first|house|begin| => line 3 rule 12 NotBuilt
house => line 1 rule 1 BadLine
house now| => line 1 rule 1 BadLine
plain|house|begin| => line 2 rule 1 BadLine
plain|begin|house| => line 3 rule 1 BadLine";

#[test]
fn a_script_has_a_head_and_a_begin(rt: HostRuntime) -> Result<(), Fail> {
    check(&rt, rt.alloc(), "", HEADS, "")
}

const FORMS: &str = "ledger coins => read
ledger  coins => line 2 rule 1 BadLine
ledger\tcoins => line 2 rule 1 BadLine
ledger coins  => line 2 rule 1 BadLine
 ledger coins => line 2 rule 1 BadLine
ledger coins\r => line 2 rule 1 BadLine
\r => line 2 rule 1 BadLine
ledger => line 2 rule 1 BadLine
ledger coins more => line 2 rule 1 BadLine
ledger Coins => line 2 rule 1 BadLine
ledger 9coins => line 2 rule 1 BadLine
ledger co\u{ee}ns => line 2 rule 1 BadLine
ledger a234567890-bcdef => read
ledger a234567890-bcdefg => line 2 rule 1 BadLine
party alice honest 4 => line 2 rule 1 BadLine
open => line 2 rule 1 BadLine
deal swap alice => line 2 rule 1 BadLine
deal swap alice bob alice => line 2 rule 1 BadLine
deal swap alice bob => read";

#[test]
fn lines_have_one_form(rt: HostRuntime) -> Result<(), Fail> {
    check(&rt, rt.alloc(), "plain\n", FORMS, "\nbegin\n")
}

const DECLARED: &str = "ledger a|ledger a => line 3 rule 2 NameTwice
ledger a|deal a p q => line 3 rule 2 NameTwice
deal d p q|deal d r s => line 3 rule 2 NameTwice
deal d p q|ledger p => line 3 rule 2 NameTwice
deal d p q|ledger d => line 3 rule 2 NameTwice
deal d p d => line 2 rule 2 NameTwice
deal d p q|deal e p d => line 3 rule 2 NameTwice
ledger a|deal d p a => line 3 rule 2 NameTwice
ledger a|open a coin a 1 => line 3 rule 2 NameTwice
ledger a|open b coin a 1 => line 3 rule 2 NameTwice
ledger a|open b coin p 1 => line 3 rule 3 UnknownName
open a coin p 1|ledger a => line 2 rule 3 UnknownName
ledger a|open a coin p 0 => line 3 rule 7 BadOpening
ledger a|open a coin p 01 => line 3 rule 1 BadLine
ledger a|open a coin p 1|open a coin p 2 => line 4 rule 7 BadOpening
ledger a|ledger b|open a coin p 1|open b coin p 1|open a gem p 1 => read
ledger a|open a coin p 9223372036854775807 => read
ledger a|open a coin p 9223372036854775808 => line 3 rule 1 BadLine
ledger a|open a coin p 9223372036854775807|open a coin q 1 => line 4 rule 7 BadOpening
ledger a|open a coin p 9223372036854775807|open a gem q 1 => read
ledger a|ledger a|open b coin p 1 => line 3 rule 2 NameTwice
ledger b|open a coin p 1|ledger b => line 3 rule 3 UnknownName";

#[test]
fn declarations_keep_their_rules(rt: HostRuntime) -> Result<(), Fail> {
    check(&rt, rt.alloc(), "plain\n", DECLARED, "\nbegin\n")
}

const HAPPENING: &str = "register a d p => read
register b d p => line 5 rule 3 UnknownName
register a e p => line 5 rule 3 UnknownName
register a d r => line 5 rule 3 UnknownName
register p d a => line 5 rule 3 UnknownName
escrow a d p coin 5 => read
escrow a d r coin 5 => line 5 rule 3 UnknownName
escrow a d p coin 05 => line 5 rule 1 BadLine
transfer a d p 0 q coin 5 => read
transfer a d p 4294967296 q coin 5 => read
transfer a d p 1000000000000000000000000000000000000000 q coin 5 => read
transfer a d p 00 q coin 5 => line 5 rule 1 BadLine
transfer a d p 0 r coin 5 => line 5 rule 3 UnknownName
transfer a d p 0 q coin 9223372036854775808 => line 5 rule 1 BadLine
start d p => read
start d => line 5 rule 1 BadLine
commit e p => line 5 rule 3 UnknownName
abort d a => line 5 rule 3 UnknownName
claim a d 4096 => read
claim a d 1000000000000000000000000000000000000000 => read
claim a d -1 => line 5 rule 1 BadLine
claim d a 0 => line 5 rule 3 UnknownName
start d p|claim b d 0|start => line 6 rule 3 UnknownName
start d p|start|claim b d 0 => line 6 rule 1 BadLine";

#[test]
fn events_use_bound_names(rt: HostRuntime) -> Result<(), Fail> {
    check(
        &rt,
        rt.alloc(),
        "plain\nledger a\ndeal d p q\nbegin\n",
        HAPPENING,
        "\n",
    )
}

/// A script that begins with these lines, and goes on with so many ledgers.
fn with_ledgers(alloc: Global, lines: &str, ledgers: u32) -> Result<String, Fail> {
    let mut script = format!(in alloc; "{lines}")?;
    for i in 0..ledgers {
        script.push_str(format!(in alloc; "ledger l{i}\n")?.as_str())?;
    }
    Ok(script)
}

/// A script that goes on with so many deals of two parties, which are other ones in each deal where
/// they are to differ.
fn with_deals(alloc: Global, deals: u32, differ: bool) -> Result<String, Fail> {
    let mut script = format!(in alloc; "plain\n")?;
    for i in 0..deals {
        let own = if differ { i } else { 0 };
        script.push_str(format!(in alloc; "deal d{i} p{own} q{own}\n")?.as_str())?;
    }
    Ok(script)
}

/// A script of one deal of so many parties.
fn with_parties(alloc: Global, parties: u32) -> Result<String, Fail> {
    let mut script = format!(in alloc; "plain\ndeal d")?;
    for i in 0..parties {
        script.push_str(format!(in alloc; " p{i}")?.as_str())?;
    }
    script.push_str("\nbegin\n")?;
    Ok(script)
}

/// A script of opening rows: a party of each of these numbers has one of an asset of its own on
/// each ledger.
fn with_rows(alloc: Global, ledgers: u32, assets: u32) -> Result<String, Fail> {
    let mut script = with_ledgers(alloc, "plain\n", ledgers)?;
    for asset in 0..assets {
        for ledger in 0..ledgers {
            script.push_str(format!(in alloc; "open l{ledger} a{asset} p 1\n")?.as_str())?;
        }
    }
    Ok(script)
}

#[test]
fn ledgers_deals_and_parties_have_limits(rt: HostRuntime) -> Result<(), Fail> {
    let alloc = rt.alloc();
    let eight = with_ledgers(alloc, "plain\n", 8)?;
    assert!(rt; told(alloc, eight.as_bytes())?.as_str() == "line 10 rule 1 BadLine");
    let nine = with_ledgers(alloc, "plain\n", 9)?;
    assert!(rt; told(alloc, nine.as_bytes())?.as_str() == "line 10 rule 9 TooMany");
    let most = with_parties(alloc, 16)?;
    assert!(rt; told(alloc, most.as_bytes())?.as_str() == "read");
    let many = with_parties(alloc, 17)?;
    assert!(rt; told(alloc, many.as_bytes())?.as_str() == "line 2 rule 9 TooMany");
    let deals = with_deals(alloc, 64, true)?;
    assert!(rt; told(alloc, deals.as_bytes())?.as_str() == "line 66 rule 1 BadLine");
    let more = with_deals(alloc, 65, false)?;
    assert!(rt; told(alloc, more.as_bytes())?.as_str() == "line 66 rule 9 TooMany");
    Ok(())
}

#[test]
fn a_script_has_256_parties(rt: HostRuntime) -> Result<(), Fail> {
    let alloc = rt.alloc();
    let mut script = with_ledgers(alloc, "plain\n", 1)?;
    for party in 0..256 {
        script.push_str(format!(in alloc; "open l0 coin p{party} 1\n")?.as_str())?;
    }
    script.push_str("open l0 gem p0 1\n")?;
    assert!(rt; told(alloc, script.as_bytes())?.as_str() == "line 260 rule 1 BadLine");
    script.push_str("open l0 coin q 1\n")?;
    assert!(rt; told(alloc, script.as_bytes())?.as_str() == "line 260 rule 9 TooMany");
    Ok(())
}

#[test]
fn a_script_has_1024_rows(rt: HostRuntime) -> Result<(), Fail> {
    let alloc = rt.alloc();
    let more = with_rows(alloc, 1, 1025)?;
    assert!(rt; told(alloc, more.as_bytes())?.as_str() == "line 1027 rule 7 BadOpening");
    let two = with_rows(alloc, 2, 513)?;
    assert!(rt; told(alloc, two.as_bytes())?.as_str() == "line 1028 rule 9 TooMany");
    Ok(())
}

#[test]
fn a_script_has_20000_lines(rt: HostRuntime) -> Result<(), Fail> {
    let alloc = rt.alloc();
    let mut script = format!(in alloc; "")?;
    for _ in 0..20000 {
        script.push_str("\n")?;
    }
    assert!(rt; told(alloc, script.as_bytes())?.as_str() == "read");
    let late = format!(in alloc; "{script}plain\n")?;
    assert!(rt; told(alloc, late.as_bytes())?.as_str() == "line 20001 rule 9 TooMany");
    let later = format!(in alloc; "{script}house\n")?;
    assert!(rt; told(alloc, later.as_bytes())?.as_str() == "line 20001 rule 9 TooMany");
    let bad = format!(in alloc; "{script}begin\n")?;
    assert!(rt; told(alloc, bad.as_bytes())?.as_str() == "line 20001 rule 1 BadLine");
    Ok(())
}

#[test]
fn a_script_has_2097152_bytes(rt: HostRuntime) -> Result<(), Fail> {
    let alloc = rt.alloc();
    let mut script = vec![in alloc; b'#'; 2097151]?;
    script.push(b'\n')?;
    assert!(rt; told(alloc, script.as_slice())?.as_str() == "read");
    script.push(b'\n')?;
    assert!(rt; told(alloc, script.as_slice())?.as_str() == "line 0 rule 11 TooLarge");
    Ok(())
}

#[test]
fn a_script_tells_what_it_declares_and_what_happens(rt: HostRuntime) -> Result<(), Fail> {
    let text =
        b"# two ledgers\nplain\nledger a\nopen a coin p 7\ndeal d p q\nbegin\n\nstart d p\n#\nclaim a d 4294967296\n";
    let script = read_script(rt.alloc(), text.as_slice()).map_err(|_| "refused")?;
    let name = Name::from_bytes(b"a")?;
    assert!(rt; script.declarations.is_ledger(&name));
    assert!(rt; !script.declarations.is_party(&name));
    assert_eq!(rt; script.declarations.parties().len(), 2);
    let [ledger, open, deal] = script.declarations.as_slice() else {
        return Err(Fail::from("three declarations"));
    };
    assert!(rt; matches!(ledger, Declaration::Ledger { .. }));
    assert!(rt; matches!(open, Declaration::Open { amount: 7, .. }));
    assert!(rt; matches!(deal, Declaration::Deal { .. }));
    let [start, claim] = script.events.as_slice() else {
        return Err(Fail::from("two events"));
    };
    assert_eq!(rt; start.line, 8);
    assert!(rt; matches!(start.event, Event::Start { .. }));
    assert_eq!(rt; claim.line, 10);
    assert!(rt; matches!(claim.event, Event::Claim { len: None, .. }));
    Ok(())
}
