//! Reading links and claims from their texts.

ghost use Rattle.std.specs.Prelude.{◌≡◌, ◌<◌, ◌≤◌, ◌^◌, ◌+◌, length, IfOk, Ok};
ghost use Rattle.dh_base.specs.Formats.{next_values};
ghost use Rattle.claim_core.specs.ClaimTexts.{LinkFits, ClaimFits, LinkHasText, ClaimHasText, link_text, claim_text};
ghost use Rattle.claim_core.specs.Limits.{IsSmall};
ghost use Rattle.claim_core.specs.ClaimReading.{Gives, text_from, link_from, links_from, fields_from, claim_from, link_of, claim_of};
ghost use Rattle.claim_core.specs.declared.link.Link.{Link};
ghost use Rattle.claim_core.specs.declared.claim.Claim.{Claim};

use crate::claim::Claim;
use crate::link::Link;
use crate::parts::{take_count, take_records, take_sigs};
use crate::read_claim_fault::ReadClaimFault;
use crate::writing::CLAIM_TAG;
use dh_base::{List, next_id, next_text, next_u32};
use std::alloc::Global;

/// The most links of a claim.
const MOST_LINKS: u16 = 64;

/// A text behind its length, and the place behind it.
fn take_text(alloc: Global, bytes: &[u8], at: u32) -> Result<(List<u8>, u32), ReadClaimFault>
    requires { length bytes.now < 2 ^ 32 }
    ensures { Gives result (text_from bytes.now at) }
{
    let (text, next) = next_text(bytes, at)?;
    let kept = Vec::from_slice(alloc, text)?;
    Ok((List::from_vec(kept), next))
}

/// The link at a place, and the place behind it.
#[tactic(auto, unfolding(crate::specs::ClaimReading::link_from))]
fn take_link(alloc: Global, bytes: &[u8], at: u32) -> Result<(Link, u32), ReadClaimFault>
    requires { length bytes.now < 2 ^ 32 }
    ensures { Gives result (link_from bytes.now at) }
{
    let (set_text, next) = take_text(alloc, bytes, at)?;
    let (len, next) = next_u32(bytes, next)?;
    let (head, next) = next_id(bytes, next)?;
    let (sigs, next) = take_sigs(alloc, bytes, next)?;
    let link = Link {
        set_text,
        len,
        head,
        sigs,
    };
    Ok((link, next))
}

/// So many links, and the place behind them.
fn take_more_links(
    alloc: Global,
    count: u16,
    bytes: &[u8],
    at: u32,
) -> Result<(List<Link>, u32), ReadClaimFault>
    requires { length bytes.now < 2 ^ 32 }
    ensures { Gives result (next_values link_from count bytes.now at) }
{
    let mut links = Vec::new(alloc);
    let mut next = at;
    for number in 0..count {
        let (link, behind) = take_link(alloc, bytes, next)?;
        links.push(link)?;
        next = behind;
    }
    Ok((List::from_vec(links), next))
}

/// The links at a place, behind their number, and the place behind them.
fn take_links(alloc: Global, bytes: &[u8], at: u32) -> Result<(List<Link>, u32), ReadClaimFault>
    requires { length bytes.now < 2 ^ 32 }
    ensures { Gives result (links_from bytes.now at) }
{
    let (count, next) = take_count(bytes, at, MOST_LINKS)?;
    take_more_links(alloc, count, bytes, next)
}

/// The fields of a claim that stand behind the tag, and the place behind them.
#[tactic(auto, unfolding(crate::specs::ClaimReading::fields_from))]
fn take_fields(alloc: Global, bytes: &[u8], at: u32) -> Result<(Claim, u32), ReadClaimFault>
    requires { length bytes.now < 2 ^ 32 }
    ensures { Gives result (fields_from bytes.now at) }
{
    let (links, next) = take_links(alloc, bytes, at)?;
    let (recs, next) = take_records(alloc, bytes, next)?;
    let (head, next) = next_id(bytes, next)?;
    let (sigs, next) = take_sigs(alloc, bytes, next)?;
    let claim = Claim {
        links,
        recs,
        head,
        sigs,
    };
    Ok((claim, next))
}

/// The claim with which the bytes begin, and the place behind it.
#[tactic(auto, unfolding(crate::specs::ClaimReading::claim_from))]
fn take_claim(alloc: Global, bytes: &[u8]) -> Result<(Claim, u32), ReadClaimFault>
    requires { length bytes.now < 2 ^ 32 }
    ensures { Gives result (claim_from bytes.now 0) }
{
    if bytes.len() < 8 || bytes[..8] != CLAIM_TAG[..] {
        return Err(ReadClaimFault::BadForm { at: 0 });
    }
    take_fields(alloc, bytes, 8)
}

/// The link that all of the bytes are.
fn take_whole_link(alloc: Global, bytes: &[u8]) -> Result<Link, ReadClaimFault>
    requires { length bytes.now < 2 ^ 32 }
    ensures { Gives result (link_of bytes.now) }
{
    let (link, end) = take_link(alloc, bytes, 0)?;
    if (end as usize) < bytes.len() {
        return Err(ReadClaimFault::BadForm { at: end });
    }
    Ok(link)
}

/// The claim that all of the bytes are.
fn take_whole_claim(alloc: Global, bytes: &[u8]) -> Result<Claim, ReadClaimFault>
    requires { length bytes.now < 2 ^ 32 }
    ensures { Gives result (claim_of bytes.now) }
{
    let (claim, next) = take_claim(alloc, bytes)?;
    if (next as usize) < bytes.len() {
        return Err(ReadClaimFault::BadForm { at: next });
    }
    Ok(claim)
}

/// The link that the bytes spell, all of the bytes. The text of its set isn't read.
pub fn read_link(alloc: Global, bytes: &[u8]) -> Result<Link, ReadClaimFault>
    requires { length bytes.now < 2 ^ 32 }
    // What is read is spelled so.
    ensures found { IfOk result (λ link. LinkFits link × (bytes.now ≡ link_text link)) }
    // What is spelled so is read, unless memory runs out.
    ensures only { (link : Link) → LinkFits link → bytes.now ≡ link_text link
        → Gives result (Ok link) }
    // Which field is the first at fault.
    ensures exact { Gives result (link_of bytes.now) }
    // What is read can be written.
    ensures writable { IfOk result LinkHasText }
{
    take_whole_link(alloc, bytes)
}

/// The claim that the bytes spell, all of the bytes. The texts of its sets aren't read.
pub fn read_claim(alloc: Global, bytes: &[u8]) -> Result<Claim, ReadClaimFault>
    requires { length bytes.now < 2 ^ 32 }
    // What is read is spelled so.
    ensures found { IfOk result (λ claim. ClaimFits claim × (bytes.now ≡ claim_text claim)) }
    // What is spelled so is read, unless memory runs out.
    ensures only { (claim : Claim) → ClaimFits claim → bytes.now ≡ claim_text claim
        → Gives result (Ok claim) }
    // Which field is the first at fault.
    ensures exact { Gives result (claim_of bytes.now) }
    // What is read can be written, and looked at.
    ensures writable { IfOk result ClaimHasText }
    ensures small { IfOk result IsSmall }
{
    take_whole_claim(alloc, bytes)
}
