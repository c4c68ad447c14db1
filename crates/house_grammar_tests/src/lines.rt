use house_grammar::reading::house_line;
use house_grammar::{Building, Declaration, Event, ForgedText, HouseLine};
use std::alloc::Global;
use std::process::Abort;
use std::test::Fail;

/// What kind of line it is.
fn kind(line: &Option<HouseLine>) -> &'static str {
    match line {
        None => "none",
        Some(HouseLine::House) => "house",
        Some(HouseLine::Declare(_)) => "declares",
        Some(HouseLine::Begin) => "begin",
        Some(HouseLine::Build(_)) => "builds",
        Some(HouseLine::Happen(_)) => "happens",
    }
}

/// Reads each line of the table, in which its kind stands behind an arrow.
fn check(rt: &impl Abort, alloc: Global, table: &str) -> Result<(), Fail> {
    for case in table.lines() {
        let (text, wanted) = case.split_once(" => ").ok_or("no kind")?;
        let line = house_line(alloc, text.as_bytes())?;
        assert!(rt; kind(&line) == wanted, "{text}");
    }
    Ok(())
}

const FORMS: &str = "house => house
party ann honest 8 => declares
party ann deviant t5 => declares
seat s0 honest t6 => declares
seat s0 deviant 99999999999999999999 => declares
set v 0 1 s0 s1 s2 s3 => declares
set v 0 0 s0 => declares
ledger coins => declares
open coins coin ann 9223372036854775807 => declares
deal d ann ben => declares
step d ann ben coins coin 5 => declares
begin => begin
forge e ann 0 register d => builds
forge e ann 0 pay coins ben coin 5 => builds
forge e ann 0 escrow d coins coin 5 => builds
forge e ann 0 transfer d coins 0 ben coin 5 => builds
forge e ann 0 start d => builds
forge e ann 0 vote d abort => builds
forge e s0 0 prefix v l => builds
forge e s0 0 handover v l w => builds
forge e s0 0 status v d l 4 commit => builds
forge e ann 0 bytes 00ff => builds
flip f e => builds
log l => builds
rec l start d => builds
rec l commit d ann => builds
rec l abort d ann => builds
take l s0 4 => builds
claim k l => builds
cut k => builds
link k w 4 => builds
linkby k 0 e => builds
by k 0 e => builds
term t give coins coin 5 => builds
term t get coins coin 0 => builds
sclaim k d l 4 commit => builds
deliver coins e => happens
show coins d k => happens
ask s coins d ann => happens
join ann d 10 => happens
join ann d 10 t => happens
next ann d e => happens
again ann d 0 e => happens
start ann d e => happens
commit ann d e => happens
abort ann d e => happens
tick ann d 11 e => happens
hear ann s => happens
enter s0 0 e => happens
prefix s0 4 e => happens
handover s0 w 4 e => happens
install s4 k => happens
install s4 k d c => happens
fail coins => happens
stop ann before => happens
stop s0 after => happens
reopen coins => happens
status s0 d e => happens";

#[test]
fn each_keyword_begins_a_line(rt: HostRuntime) -> Result<(), Fail> {
    check(&rt, rt.alloc(), FORMS)
}

const BROKEN: &str = " => none
plain => none
house  => none
House => none
house now => none
party ann honest => none
party ann loyal 8 => none
party ann honest t7 => none
party ann honest 08 => none
party Ann honest 8 => none
set v 0 1 => none
open coins coin ann 9223372036854775808 => none
deal d ann => none
step d ann ben coins coin => none
forge e ann 0 => none
forge e ann 0 bytes  => none
forge e ann 0 bytes 0 => none
forge e ann 0 bytes 0F => none
forge e ann 0 bytes 00 ff => none
forge e ann 0 vote d open => none
forge e ann 0 deliver coins e => none
rec l start d ann => none
rec l commit d => none
rec l vote d ann => none
link k w four => none
linkby k e 0 => none
term t keep coins coin 5 => none
term t give coins coin -5 => none
sclaim k d l commit 4 => none
deliver coins  e => none
join ann d 10 t u => none
tick ann d e => none
install s4 => none
stop ann => none
stop ann during => none
start d => none
register d => none";

#[test]
fn other_lines_say_nothing(rt: HostRuntime) -> Result<(), Fail> {
    check(&rt, rt.alloc(), BROKEN)
}

/// The words of a step, a space between each two.
fn step_told(alloc: Global, line: &Option<HouseLine>) -> Result<String, Fail> {
    match line {
        Some(
            HouseLine::Declare(
                Declaration::Step {
                    deal,
                    from,
                    to,
                    ledger,
                    asset,
                    amount,
                },
            ),
        ) => Ok(format!(in alloc; "{deal} {from} {to} {ledger} {asset} {amount}")?),
        _ => Err(Fail::from("no step")),
    }
}

#[test]
fn words_stand_in_order(rt: HostRuntime) -> Result<(), Fail> {
    let alloc = rt.alloc();
    let line = house_line(alloc, b"step d ann ben coins coin 5")?;
    assert!(rt; step_told(alloc, &line)?.as_str() == "d ann ben coins coin 5");
    Ok(())
}

/// The number of an entry, a deadline or a link.
fn number(line: &Option<HouseLine>) -> Option<u64> {
    match line {
        Some(HouseLine::Happen(Event::Enter { at, .. })) => at.map(u64::from),
        Some(HouseLine::Happen(Event::Join { deadline, .. })) => *deadline,
        Some(HouseLine::Build(Building::Link { len, .. })) => len.map(u64::from),
        _ => None,
    }
}

#[test]
fn numbers_may_exceed_their_field(rt: HostRuntime) -> Result<(), Fail> {
    let alloc = rt.alloc();
    assert_eq!(rt;
        number(&house_line(alloc, b"enter s 4294967295 e")?),
        Some(4294967295)
    );
    assert_eq!(rt; number(&house_line(alloc, b"enter s 4294967296 e")?), None);
    assert!(rt; kind(&house_line(alloc, b"enter s 4294967296 e")?) == "happens");
    assert_eq!(rt; number(&house_line(alloc, b"link k v 0")?), Some(0));
    let most = house_line(alloc, b"join p d 18446744073709551615")?;
    assert_eq!(rt; number(&most), Some(18446744073709551615));
    let above = house_line(alloc, b"join p d 18446744073709551616")?;
    assert_eq!(rt; number(&above), None);
    assert!(rt; kind(&above) == "happens");
    Ok(())
}

#[test]
fn digits_are_bytes(rt: HostRuntime) -> Result<(), Fail> {
    let line = house_line(rt.alloc(), b"forge e ann 0 bytes 00ff7a")?;
    let Some(
        HouseLine::Build(
            Building::Forge {
                text: ForgedText::Bytes { message },
                ..
            },
        ),
    ) = line
    else {
        return Err(Fail::from("no bytes"));
    };
    assert!(rt; message.as_slice() == [0, 255, 122].as_slice());
    Ok(())
}
