//! What claims certify, as text. Each set has one seat, whose ring is made from the epoch.

ghost use Rattle.std.specs.Prelude.{◌≡◌, ◌≤◌, ◌<◌, ◌^◌, length, IfOk};
ghost use Rattle.std.specs.List.{AllByRecursion};
ghost use Rattle.claim_core.specs.declared.link.Link.{Link};
ghost use Rattle.claim_core.specs.Limits.{IsSmall};

use cert_core::{SeatSig, Set, handover_text, prefix_text, set_id, write_set};
use claim_core::*;
use dh_base::{Id, List};
use key_ring::{KeySpec, account_of, make_envelope, make_ring};
use std::alloc::Global;
use std::test::Fail;
use vote_log::{LogRecord, head_of};

const DEAL: Id = Id([7; 32]);

/// What makes the ring of the seat of an epoch.
fn spec_of(epoch: u8) -> KeySpec
    ensures { result.size ≡ 1 }
{
    KeySpec {
        seed: [epoch; 32],
        ident: [epoch; 16],
        size: 1,
    }
}

/// The set of that epoch.
fn set_of(alloc: Global, epoch: u8) -> Result<Set, Fail>
    ensures { IfOk result (λ set. set.epoch ≡ epoch) }
{
    let ring = make_ring(alloc, &spec_of(epoch))?;
    let account = account_of(ring.as_slice());
    Ok(Set {
        epoch: u32::from(epoch),
        f: 0,
        seats: [account; 16],
    })
}

/// The text as the seat of that epoch says it.
fn said(alloc: Global, epoch: u8, text: &[u8]) -> Result<List<SeatSig>, Fail>
    requires { length text.now ≤ 16384 }
{
    let env = make_envelope(alloc, &spec_of(epoch), 0, text)?;
    let mut sigs = Vec::new(alloc);
    sigs.push(SeatSig { seat: 0, env })?;
    Ok(List::from_vec(sigs))
}

/// The start of a deal of two parties, and a vote on it.
fn two_records() -> [LogRecord; 2] {
    [
        LogRecord::start(2, DEAL),
        LogRecord::vote(dh_base::Outcome::Commit, 0, DEAL),
    ]
}

/// The head of the first records.
fn head_at(alloc: Global, len: usize) -> Result<Id, Fail>
    requires { len ≤ 2 }
{
    let house = set_id(&set_of(alloc, 0)?);
    Ok(head_of(&house, &two_records()[..len]))
}

/// What the set before says of a link.
fn link_sigs(alloc: Global, epoch: u8, len: u8, head: &Id) -> Result<List<SeatSig>, Fail>
    requires { 1 ≤ epoch }
{
    let own = set_id(&set_of(alloc, epoch - 1)?);
    let next = set_id(&set_of(alloc, epoch)?);
    let text = handover_text(&own, u32::from(len), head, &next);
    said(alloc, epoch - 1, &text)
}

/// The text of the set of that epoch.
fn set_text(alloc: Global, epoch: u8) -> Result<List<u8>, Fail>
    ensures { IfOk result (λ text. length text < 2 ^ 32) }
{
    let text = write_set(alloc, &set_of(alloc, epoch)?)?;
    if text.len() > 1000 {
        return Err(Fail::from("long"));
    }
    Ok(text)
}

/// The link from the set of the epoch before, over so many records.
fn link_to(alloc: Global, epoch: u8, len: u8) -> Result<Link, Fail>
    requires some { 1 ≤ epoch }
    requires within { len ≤ 2 }
    ensures { IfOk result (λ link. length link.set_text < 2 ^ 32) }
{
    let head = head_at(alloc, usize::from(len))?;
    let sigs = link_sigs(alloc, epoch, len, &head)?;
    Ok(Link {
        set_text: set_text(alloc, epoch)?,
        len: u32::from(len),
        head,
        sigs,
    })
}

/// The claim of the two records by the set of that epoch.
fn claim_by(alloc: Global, epoch: u8, links: Vec<Link>) -> Result<Claim, Fail>
    requires few { length links.items ≤ 64 }
    requires texts { AllByRecursion (λ (link : Link). length link.set_text < 2 ^ 32) links.items }
    ensures { IfOk result IsSmall }
{
    let head = head_at(alloc, 2)?;
    let own = set_id(&set_of(alloc, epoch)?);
    let recs = Vec::from_array(alloc, two_records())?;
    Ok(Claim {
        links: List::from_vec(links),
        recs: List::from_vec(recs),
        head,
        sigs: said(alloc, epoch, &prefix_text(&own, 2, &head))?,
    })
}

/// What the claim certifies, or what is wrong with it.
fn told(alloc: Global, claim: &Claim) -> Result<String, Fail>
    requires { IsSmall claim.now }
{
    match certified(&set_of(alloc, 0)?, claim) {
        Ok(
            Certified {
                set,
                epoch,
                len,
                head,
            },
        ) => Ok(format!(in alloc; "{set} {epoch} {len} {head}")?),
        Err(fault) => Ok(format!(in alloc; "{fault}")?),
    }
}

/// Whether a claim with these links certifies the two records by the set of that epoch.
fn certifies(alloc: Global, epoch: u8, links: Vec<Link>) -> Result<bool, Fail>
    requires few { length links.items ≤ 64 }
    requires texts { AllByRecursion (λ (link : Link). length link.set_text < 2 ^ 32) links.items }
{
    let told = told(alloc, &claim_by(alloc, epoch, links)?)?;
    let (set, head) = (set_id(&set_of(alloc, epoch)?), head_at(alloc, 2)?);
    Ok(told == format!(in alloc; "{set} {epoch} 2 {head}")?)
}

#[test]
fn a_claim_of_no_link_certifies(rt: HostRuntime) -> Result<(), Fail> {
    assert!(rt; certifies(rt.alloc(), 0, Vec::new(rt.alloc()))?);
    Ok(())
}

#[test]
fn a_claim_of_one_link_certifies(rt: HostRuntime) -> Result<(), Fail> {
    let alloc = rt.alloc();
    let links = [link_to(alloc, 1, 1)?];
    assert!(rt; certifies(alloc, 1, Vec::from_array(alloc, links)?)?);
    Ok(())
}

/// A later link may stand before an earlier one on the records.
#[test]
fn a_claim_of_three_links_certifies(rt: HostRuntime) -> Result<(), Fail> {
    let alloc = rt.alloc();
    let links = [
        link_to(alloc, 1, 2)?,
        link_to(alloc, 2, 0)?,
        link_to(alloc, 3, 1)?,
    ];
    assert!(rt; certifies(alloc, 3, Vec::from_array(alloc, links)?)?);
    Ok(())
}

/// What is told of a claim by the set of epoch 1 with that link.
fn told_with(alloc: Global, link: Link) -> Result<String, Fail>
    requires { length link.set_text < 2 ^ 32 }
{
    told(alloc, &claim_by(alloc, 1, Vec::from_array(alloc, [link])?)?)
}

#[test]
fn a_link_to_no_set_is_broken(rt: HostRuntime) -> Result<(), Fail> {
    let alloc = rt.alloc();
    let mut link = link_to(alloc, 1, 1)?;
    link.set_text = List::from_vec(Vec::from_slice(alloc, b"set")?);
    assert!(rt; told_with(alloc, link)?.as_str() == "1 BadChain 0 1 BadSet 1 BadTag");
    Ok(())
}

#[test]
fn a_link_that_skips_an_epoch_is_broken(rt: HostRuntime) -> Result<(), Fail> {
    let told = told_with(rt.alloc(), link_to(rt.alloc(), 2, 1)?)?;
    assert!(rt; told.as_str() == "1 BadChain 0 2 WrongEpoch 1 2");
    Ok(())
}

/// What is told of a link with the head of both records that says so many.
fn told_with_length(alloc: Global, len: u32) -> Result<String, Fail> {
    let mut link = link_to(alloc, 1, 2)?;
    link.len = len;
    told_with(alloc, link)
}

#[test]
fn a_link_whose_head_is_not_on_the_path_is_broken(rt: HostRuntime) -> Result<(), Fail> {
    let alloc = rt.alloc();
    assert!(rt; told_with_length(alloc, 3)?.as_str() == "1 BadChain 0 3 HeadNotOnPath 3");
    assert!(rt; told_with_length(alloc, 1)?.as_str() == "1 BadChain 0 3 HeadNotOnPath 1");
    Ok(())
}

#[test]
fn the_set_before_signs_a_link(rt: HostRuntime) -> Result<(), Fail> {
    let alloc = rt.alloc();
    let mut link = link_to(alloc, 1, 1)?;
    link.sigs = said(alloc, 1, b"handed over")?;
    assert!(rt; told_with(alloc, link)?.as_str() == "1 BadChain 0 4 BadQuorum 4 NotItsRing 0");
    Ok(())
}

#[test]
fn a_claim_has_the_head_of_its_records(rt: HostRuntime) -> Result<(), Fail> {
    let alloc = rt.alloc();
    let mut claim = claim_by(alloc, 0, Vec::new(alloc))?;
    let recs = Vec::from_array(alloc, [LogRecord::start(2, DEAL)])?;
    claim.recs = List::from_vec(recs);
    let (computed, named) = (head_at(alloc, 1)?, head_at(alloc, 2)?);
    assert!(rt; told(alloc, &claim)? == format!(in alloc; "2 WrongHead {computed} {named}")?);
    Ok(())
}

#[test]
fn a_claim_without_signatures_certifies_nothing(rt: HostRuntime) -> Result<(), Fail> {
    let alloc = rt.alloc();
    let mut claim = claim_by(alloc, 0, Vec::new(alloc))?;
    claim.sigs = List::from_vec(Vec::new(alloc));
    assert!(rt; told(alloc, &claim)?.as_str() == "3 BadQuorum 6 TooFew 0 1");
    Ok(())
}

#[test]
fn the_last_set_signs_a_claim(rt: HostRuntime) -> Result<(), Fail> {
    let alloc = rt.alloc();
    let links = Vec::from_array(alloc, [link_to(alloc, 1, 1)?])?;
    let by_first = claim_by(alloc, 0, links)?;
    assert!(rt; told(alloc, &by_first)?.as_str() == "3 BadQuorum 4 NotItsRing 0");
    Ok(())
}

/// The id of the set to which the links lead along the two records, or what is wrong with them.
fn chain_end_told(alloc: Global, links: &[Link]) -> Result<String, Fail>
    requires few { length links.now ≤ 64 }
    requires texts { AllByRecursion (λ (link : Link). length link.set_text < 2 ^ 32) links.now }
{
    match chain_end(&set_of(alloc, 0)?, &two_records(), links) {
        Ok(set) => Ok(format!(in alloc; "{}", set_id(&set))?),
        Err(fault) => Ok(format!(in alloc; "{fault}")?),
    }
}

/// The id of the set of that epoch.
fn set_told(alloc: Global, epoch: u8) -> Result<String, Fail> {
    Ok(format!(in alloc; "{}", set_id(&set_of(alloc, epoch)?))?)
}

#[test]
fn a_chain_of_no_link_ends_at_the_first_set(rt: HostRuntime) -> Result<(), Fail> {
    assert!(rt; chain_end_told(rt.alloc(), &[])? == set_told(rt.alloc(), 0)?);
    Ok(())
}

#[test]
fn a_chain_ends_at_the_set_of_its_last_link(rt: HostRuntime) -> Result<(), Fail> {
    let alloc = rt.alloc();
    let both = [link_to(alloc, 1, 1)?, link_to(alloc, 2, 2)?];
    assert!(rt; chain_end_told(alloc, &both)? == set_told(alloc, 2)?);
    Ok(())
}

#[test]
fn a_chain_may_be_broken(rt: HostRuntime) -> Result<(), Fail> {
    let skipping = [link_to(rt.alloc(), 2, 1)?];
    let told = chain_end_told(rt.alloc(), &skipping)?;
    assert!(rt; told.as_str() == "1 BadChain 0 2 WrongEpoch 1 2");
    Ok(())
}
