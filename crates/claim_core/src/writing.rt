//! Writing links and claims as texts.

ghost use Rattle.std.specs.Prelude.{◌≡◌, ◌++◌, ◌<◌, ◌≤◌, ◌^◌, length, IfOk, OnOk};
ghost use Rattle.std.specs.List.{AllByRecursion, flat_map};
ghost use Rattle.std.specs.Int.{w16, w32, to_be_bytes};
ghost use Rattle.dh_base.specs.Formats.{list_text};
ghost use Rattle.vote_log.specs.RecordTexts.{record_text};
ghost use Rattle.claim_core.specs.ClaimTexts.{SigHasText, LinkHasText, ClaimHasText, sig_text, sigs_text, link_text, claim_text};

use crate::claim::Claim;
use crate::link::Link;
use cert_core::SeatSig;
use dh_base::{List, NoMemory, put_id, put_text, put_u16, put_u32};
use key_ring::write_envelope;
use std::alloc::Global;
use vote_log::{LogRecord, record_text};

/// What the text of a claim begins with.
pub const CLAIM_TAG: &[u8; 8] = b"CCDCLAIM";

/// Appends a signature.
fn put_sig(alloc: Global, out: &mut Vec<u8>, sig: &SeatSig) -> Result<(), NoMemory>
    requires { SigHasText sig.now }
    ensures { OnOk result (out.new.items ≡ out.old.items ++ sig_text sig.now) }
{
    let text = write_envelope(alloc, &sig.env)?;
    put_u16(out, sig.seat)?;
    put_text(out, text.as_slice())?;
    Ok(())
}

/// Appends signatures, one behind the other.
fn put_each_sig(alloc: Global, out: &mut Vec<u8>, sigs: &[SeatSig]) -> Result<(), NoMemory>
    requires { AllByRecursion SigHasText sigs.now }
    ensures { OnOk result (out.new.items ≡ out.old.items ++ flat_map sig_text sigs.now) }
{
    for sig in sigs {
        put_sig(alloc, out, sig)?;
    }
    Ok(())
}

/// Appends signatures behind their number.
fn put_sigs(alloc: Global, out: &mut Vec<u8>, sigs: &[SeatSig]) -> Result<(), NoMemory>
    requires few { length sigs.now < 2 ^ 16 }
    requires each { AllByRecursion SigHasText sigs.now }
    ensures { OnOk result (out.new.items ≡ out.old.items ++ sigs_text sigs.now) }
{
    put_u16(out, sigs.len() as u16)?;
    put_each_sig(alloc, out, sigs)
}

/// Appends a link.
fn put_link(alloc: Global, out: &mut Vec<u8>, link: &Link) -> Result<(), NoMemory>
    requires { LinkHasText link.now }
    ensures { OnOk result (out.new.items ≡ out.old.items ++ link_text link.now) }
{
    put_text(out, link.set_text.as_slice())?;
    put_u32(out, link.len)?;
    put_id(out, &link.head)?;
    put_sigs(alloc, out, link.sigs.as_slice())
}

/// Appends links, one behind the other.
fn put_each_link(alloc: Global, out: &mut Vec<u8>, links: &[Link]) -> Result<(), NoMemory>
    requires { AllByRecursion LinkHasText links.now }
    ensures { OnOk result (out.new.items ≡ out.old.items ++ flat_map link_text links.now) }
{
    for link in links {
        put_link(alloc, out, link)?;
    }
    Ok(())
}

/// Appends links behind their number.
fn put_links(alloc: Global, out: &mut Vec<u8>, links: &[Link]) -> Result<(), NoMemory>
    requires few { length links.now < 2 ^ 16 }
    requires each { AllByRecursion LinkHasText links.now }
    ensures { OnOk result (out.new.items
        ≡ out.old.items ++ list_text (to_be_bytes w16) link_text links.now) }
{
    put_u16(out, links.len() as u16)?;
    put_each_link(alloc, out, links)
}

/// Appends records, one behind the other.
fn put_each_record(out: &mut Vec<u8>, recs: &[LogRecord]) -> Result<(), NoMemory>
    ensures { OnOk result (out.new.items ≡ out.old.items ++ flat_map record_text recs.now) }
{
    for rec in recs {
        out.extend_from_slice(&record_text(rec))?;
    }
    Ok(())
}

/// Appends records behind their number.
fn put_records(out: &mut Vec<u8>, recs: &[LogRecord]) -> Result<(), NoMemory>
    requires { length recs.now < 2 ^ 32 }
    ensures { OnOk result (out.new.items
        ≡ out.old.items ++ list_text (to_be_bytes w32) record_text recs.now) }
{
    put_u32(out, recs.len() as u32)?;
    put_each_record(out, recs)
}

/// The text of a link. It is read again where it has at most 16 signatures, and each message at
/// most 16,384 bytes.
pub fn write_link(alloc: Global, link: &Link) -> Result<List<u8>, NoMemory>
    requires { LinkHasText link.now }
    ensures { IfOk result (λ text. text ≡ link_text link.now) }
{
    let mut text = Vec::new(alloc);
    put_link(alloc, &mut text, link)?;
    Ok(List::from_vec(text))
}

/// The text of a claim. It is read again where it has at most 64 links, 4,096 records and 16
/// signatures in each list, and each message at most 16,384 bytes.
pub fn write_claim(alloc: Global, claim: &Claim) -> Result<List<u8>, NoMemory>
    requires { ClaimHasText claim.now }
    ensures { IfOk result (λ text. text ≡ claim_text claim.now) }
{
    let mut text = Vec::new(alloc);
    text.extend_from_slice(CLAIM_TAG)?;
    put_links(alloc, &mut text, claim.links.as_slice())?;
    put_records(&mut text, claim.recs.as_slice())?;
    put_id(&mut text, &claim.head)?;
    put_sigs(alloc, &mut text, claim.sigs.as_slice())?;
    Ok(List::from_vec(text))
}
