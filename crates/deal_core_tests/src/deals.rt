use deal_core::{DealFault, matrix, party_of, read_deal, write_deal};
use dh_base::{Id, Name, Refusal, digest};
use std::alloc::{AllocError, Global};
use std::process::Abort;
use std::test::Fail;

/// Adds an id that is one digit 64 times.
fn push_id(digit: u8, text: &mut Vec<u8>) -> Result<(), AllocError> {
    for _ in 0..64 {
        text.push(digit)?;
    }
    Ok(())
}

/// The bytes of lines in which `|` stands for a line feed, and `@` with a digit for 64 such digits.
fn push_lines(lines: &str, text: &mut Vec<u8>) -> Result<(), AllocError> {
    let mut is_id = false;
    for c in lines.as_bytes() {
        if is_id {
            push_id(*c, text)?;
        } else if *c == b'|' {
            text.push(b'\n')?;
        } else if *c != b'@' {
            text.push(*c)?;
        }
        is_id = *c == b'@';
    }
    Ok(())
}

/// The fault as it is told, or `read`.
fn told(alloc: Global, text: &[u8]) -> Result<String, Fail> {
    match read_deal(alloc, text) {
        Ok(_) => Ok(format!(in alloc; "read")?),
        Err(fault) => Ok(format!(in alloc; "{fault}")?),
    }
}

/// Reads the text of each line of the table, behind the lines before it. Its answer stands behind
/// an arrow.
fn check(rt: &impl Abort, alloc: Global, before: &str, table: &str) -> Result<(), Fail> {
    for case in table.lines() {
        let (lines, answer) = case.split_once(" => ").ok_or("no answer")?;
        let mut text = Vec::new(alloc);
        push_lines(before, &mut text)?;
        push_lines(lines, &mut text)?;
        let got = told(alloc, text.as_slice())?;
        assert!(rt; got.as_str() == answer, "{lines}: {got}");
    }
    Ok(())
}

const HEADS: &str = " => 1 BadLine 1
deal ring => 1 BadLine 1
deal Ring| => 1 BadLine 1
deal ring | => 1 BadLine 1
house @0| => 1 BadLine 1
deal ring| => 1 BadLine 2
deal ring|deal ring| => 1 BadLine 2
deal ring|house @0 => 1 BadLine 2
deal ring|house 00| => 1 BadLine 2
deal ring|house @g| => 1 BadLine 2
deal ring|house @A| => 1 BadLine 2
deal ring|house @0| => 1 BadLine 3
deal ring|house @0|| => 1 BadLine 3
deal ring|house @0|party a @1| => 1 BadLine 4
deal ring|house @0|party a @1|step a a bank gold 5| => 1 BadLine 4
deal ring|house @0|party a @1|party a @2| => 2 PartyTwice 4
deal ring|house @0|party a @1|party b @1| => 2 PartyTwice 4
deal ring|house @0|party a @1|party b @2| => 1 BadLine 5";

#[test]
fn heads_stand_first(rt: HostRuntime) -> Result<(), Fail> {
    check(&rt, rt.alloc(), "", HEADS)
}

const STEPS: &str = "step a c bank gold 1| => 3 UnknownParty 5
step c c bank gold 0| => 3 UnknownParty 5
step a a bank gold 0| => 4 SelfStep 5
step a b bank gold 0| => 5 ZeroAmount 5
step a b bank gold 01| => 1 BadLine 5
step a b bank gold 9223372036854775808| => 1 BadLine 5
step a b bank gold 9223372036854775807|step b a bank gold 1| => 7 SumTooLarge 6
step a b bank gold 9223372036854775807|step b a bank silver 1|step b a shop gold 1| => read
step a b bank gold 1|step b a bank gold 1|party c @3| => 1 BadLine 7
step a b bank gold 1|step b a bank gold 1 => 1 BadLine 6
step a b bank gold 1| => 8 NotConnected 1
step b a bank gold 1| => 8 NotConnected 1
step a b a x 1|step a b b x 1|step a b c x 1|step a b d x 1|step a b e x 1|step a b f x 1|step a b g x 1|step b a h x 1|step b a a x 1| => read
step a b a x 1|step a b b x 1|step a b c x 1|step a b d x 1|step a b e x 1|step a b f x 1|step a b g x 1|step b a h x 1|step b a i x 1| => 6 TooMany 13";

#[test]
fn each_step_has_its_fault(rt: HostRuntime) -> Result<(), Fail> {
    check(
        &rt,
        rt.alloc(),
        "deal two|house @0|party a @1|party b @2|",
        STEPS,
    )
}

const WALKS: &str =
    "step a b bank gold 1|step b a bank gold 1|step a c bank gold 1| => 8 NotConnected 2
step a b bank gold 1|step b a bank gold 1|step c b bank gold 1| => 8 NotConnected 2
step b c bank gold 1|step c b bank gold 1| => 8 NotConnected 1
step a b bank gold 5|step b c bank gold 5|step c a bank gold 5| => read";

#[test]
fn each_party_reaches_each(rt: HostRuntime) -> Result<(), Fail> {
    check(
        &rt,
        rt.alloc(),
        "deal ring|house @0|party a @1|party b @2|party c @3|",
        WALKS,
    )
}

const SIXTEEN: &str =
    "deal many|house @0|party a @0|party b @1|party c @2|party d @3|party e @4|party f @5|party g @6|party h @7|party i @8|party j @9|party k @a|party l @b|party m @c|party n @d|party o @e|party p @f|";

const SEVENTEENTH: &str =
    "party q 0000000000000000000000000000000000000000000000000000000000000001| => 6 TooMany 19";

#[test]
fn a_deal_has_16_parties_at_most(rt: HostRuntime) -> Result<(), Fail> {
    check(&rt, rt.alloc(), SIXTEEN, SEVENTEENTH)
}

#[test]
fn a_deal_has_64_steps_at_most(rt: HostRuntime) -> Result<(), Fail> {
    let alloc = rt.alloc();
    let mut text = Vec::new(alloc);
    push_lines("deal two|house @0|party a @1|party b @2|", &mut text)?;
    for _ in 0..32 {
        push_lines("step a b bank gold 1|step b a bank gold 1|", &mut text)?;
    }
    let most = told(alloc, text.as_slice())?;
    assert_eq!(rt; most.as_str(), "read");
    push_lines("step a b bank gold 1|", &mut text)?;
    let beyond = told(alloc, text.as_slice())?;
    assert_eq!(rt; beyond.as_str(), "6 TooMany 69");
    Ok(())
}

const BROKER: &str =
    "deal d|house @0|party alice @1|party bob @2|party carol @3|step bob alice tickets ticket 1|step alice carol tickets ticket 1|step carol alice coins coin 101|step alice bob coins coin 100|step alice bob coins coin 7|";

#[test]
fn a_deal_is_its_text(rt: HostRuntime) -> Result<(), Fail> {
    let alloc = rt.alloc();
    let mut text = Vec::new(alloc);
    push_lines(BROKER, &mut text)?;
    let deal = match read_deal(alloc, text.as_slice()) {
        Ok(deal) => deal,
        Err(_) => return Err(Fail::from("not read")),
    };
    assert_eq!(rt; deal.id, digest(text.as_slice()));
    assert_eq!(rt; deal.parties().len(), 3);
    assert_eq!(rt; deal.steps().len(), 5);
    let written = write_deal(alloc, &deal)?;
    assert!(rt; written.as_slice() == text.as_slice());
    let coins = Name::from_bytes(b"coins")?;
    let coin = Name::from_bytes(b"coin")?;
    assert_eq!(rt; matrix(&deal, 0, 1, &coins, &coin), 107);
    assert_eq!(rt; matrix(&deal, 1, 0, &coins, &coin), 0);
    assert_eq!(rt; party_of(&deal, &Id([0x22; 32])), Some(1));
    assert_eq!(rt; party_of(&deal, &Id([0x44; 32])), None);
    Ok(())
}

#[test]
fn a_fault_tells_its_field(rt: HostRuntime) -> Result<(), Fail> {
    let line = DealFault::TooMany { line: 19 };
    let party = DealFault::NotConnected { party: 2 };
    let text = format!(in rt.alloc(); "{line}, {party}")?;
    assert_eq!(rt; text.as_str(), "6 TooMany 19, 8 NotConnected 2");
    assert!(rt; line.telling(0).is_some());
    assert!(rt; line.telling(1).is_none());
    Ok(())
}
