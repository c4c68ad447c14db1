//! Links and claims go through their texts. The digests and the places were computed outside, by a
//! program of its own.

ghost use Rattle.std.specs.Prelude.{◌≤◌};

use claim_core::*;
use dh_base::{Id, digest};
use std::alloc::Global;
use std::test::Fail;

/// The digests of the claims of 0, 1 and 3 links below.
const NO_LINK: [u8; 32] = [
    0x27, 0x6c, 0x73, 0x3f, 0x80, 0x7a, 0xa2, 0x4f, 0x4c, 0xd0, 0x77, 0x87, 0x8d, 0xf5, 0x77, 0xfd,
    0x18, 0x0b, 0x78, 0xc3, 0x66, 0x76, 0xab, 0xc1, 0x07, 0x7f, 0x85, 0x52, 0x04, 0x8d, 0x39, 0x35,
];

const ONE_LINK: [u8; 32] = [
    0x6d, 0x24, 0x47, 0x18, 0x94, 0x26, 0x6f, 0x98, 0xdf, 0xf9, 0xe1, 0x4b, 0x7d, 0x3f, 0x19, 0x08,
    0x11, 0x37, 0x24, 0xde, 0xcb, 0xc1, 0x69, 0x5e, 0xbf, 0xe8, 0x74, 0x73, 0x20, 0xa5, 0xe5, 0xe0,
];

const THREE_LINKS: [u8; 32] = [
    0xf4, 0x53, 0x4d, 0xeb, 0xb1, 0x56, 0xaf, 0x83, 0xd5, 0x00, 0x18, 0xc3, 0x9b, 0xc6, 0xcf, 0xea,
    0xae, 0x6f, 0xeb, 0xfd, 0x6e, 0x4d, 0x13, 0x64, 0x81, 0x84, 0x91, 0x67, 0xaa, 0x6c, 0x8d, 0x0b,
];

/// Appends the pieces.
fn put_all(out: &mut Vec<u8>, pieces: &[&[u8]]) -> Result<(), Fail> {
    for piece in pieces {
        out.extend_from_slice(piece)?;
    }
    Ok(())
}

/// Appends a signature whose envelope has the ring text `ring` and the message `hi`. What is wrong
/// with the ring is not looked at.
fn put_sig(out: &mut Vec<u8>, seat: u8) -> Result<(), Fail> {
    let pieces: [&[u8]; 5] = [
        &[0, seat, 0, 0, 0x08, 0x96],
        b"\x00\x00\x00\x04ring\x00\x00\x00\x05\x00\x00\x00\x03",
        &[1; 32],
        &[2; 67 * 32],
        b"\x00\x00\x00\x02hi",
    ];
    put_all(out, &pieces)
}

/// Appends a link with that length.
fn put_link(out: &mut Vec<u8>, len: u8) -> Result<(), Fail> {
    let pieces: [&[u8]; 4] = [
        b"\x00\x00\x00\x04set",
        &[b'0' | len, 0, 0, 0, len],
        &[3; 32],
        &[0, 1],
    ];
    put_all(out, &pieces)?;
    put_sig(out, len)
}

/// Appends a claim of so many links, two records and two signatures.
fn put_claim(out: &mut Vec<u8>, links: u8) -> Result<(), Fail> {
    put_all(out, &[b"CCDCLAIM\x00", &[links]])?;
    for len in 0..links {
        put_link(out, len)?;
    }
    let pieces: [&[u8]; 6] = [
        b"\x00\x00\x00\x02\x01\x00\x02",
        &[7; 32],
        b"\x02\x00\x01",
        &[7; 32],
        &[4; 32],
        &[0, 2],
    ];
    put_all(out, &pieces)?;
    put_sig(out, 0)?;
    put_sig(out, 2)
}

fn claim_text(alloc: Global, links: u8) -> Result<Vec<u8>, Fail> {
    let mut text = Vec::new(alloc);
    put_claim(&mut text, links)?;
    Ok(text)
}

/// The numbers of links, records and signatures of the claim that has the text, and its head; or
/// what is wrong.
fn claim_told(alloc: Global, text: &[u8]) -> Result<String, Fail> {
    if text.len() > 20_000 {
        return Err(Fail::from("long"));
    }
    match read_claim(alloc, text) {
        Ok(claim) => {
            if write_claim(alloc, &claim)?.as_slice() != text {
                return Err(Fail::from("another text"));
            }
            let (links, recs, sigs) = (claim.links.len(), claim.recs.len(), claim.sigs.len());
            Ok(format!(in alloc; "{links} {recs} {sigs} {}", claim.head)?)
        }
        Err(fault) => Ok(format!(in alloc; "{fault}")?),
    }
}

/// Whether the claim of so many links has a text of that digest, and goes through it.
fn goes_through(alloc: Global, links: u8, expected: Id) -> Result<bool, Fail> {
    let text = claim_text(alloc, links)?;
    let head = Id([4; 32]);
    let told = claim_told(alloc, &text)?;
    Ok(digest(&text) == expected && told == format!(in alloc; "{links} 2 2 {head}")?)
}

#[test]
fn claims_go_through_their_texts(rt: HostRuntime) -> Result<(), Fail> {
    assert!(rt; goes_through(rt.alloc(), 0, Id(NO_LINK))?);
    assert!(rt; goes_through(rt.alloc(), 1, Id(ONE_LINK))?);
    assert!(rt; goes_through(rt.alloc(), 3, Id(THREE_LINKS))?);
    Ok(())
}

/// The text of the set of the link that has the text, its length and its head; or what is wrong.
fn link_told(alloc: Global, text: &[u8]) -> Result<String, Fail> {
    if text.len() > 20_000 {
        return Err(Fail::from("long"));
    }
    match read_link(alloc, text) {
        Ok(link) => {
            if write_link(alloc, &link)?.as_slice() != text {
                return Err(Fail::from("another text"));
            }
            let is_set = link.set_text.as_slice() == b"set1".as_slice();
            Ok(format!(in alloc; "{is_set} {} {}", link.len, link.head)?)
        }
        Err(fault) => Ok(format!(in alloc; "{fault}")?),
    }
}

#[test]
fn a_link_goes_through_its_text(rt: HostRuntime) -> Result<(), Fail> {
    let alloc = rt.alloc();
    let mut text = Vec::new(alloc);
    put_link(&mut text, 1)?;
    let head = Id([3; 32]);
    assert!(rt; text.len() == 2250);
    assert!(rt; link_told(alloc, &text)? == format!(in alloc; "true 1 {head}")?);
    text.push(0)?;
    assert!(rt; link_told(alloc, &text)?.as_str() == "1 BadForm 2250");
    Ok(())
}

/// Whether the field that begins there is told to break the form of the claim of one link, of which
/// one byte is another and those behind a place are cut off.
fn breaks_at(alloc: Global, place: usize, byte: u8, len: usize, at: u32) -> Result<bool, Fail> {
    let mut text = claim_text(alloc, 1)?;
    if place < text.len() {
        text[place] = byte;
    }
    if len < text.len() {
        text.truncate(len);
    }
    Ok(claim_told(alloc, &text)? == format!(in alloc; "1 BadForm {at}")?)
}

/// A byte at a place, and where the field begins. At 61 the length before the envelope is not its
/// own, and at 77 the signature has another type.
const OUT_OF_RANGE: [(usize, u8, u32); 8] = [
    (7, b'm', 0),
    (9, 65, 8),
    (55, 17, 54),
    (61, 0x97, 58),
    (77, 4, 74),
    (2262, 0x20, 2260),
    (2264, 4, 2264),
    (2301, 16, 2300),
];

#[test]
fn a_field_out_of_range_is_named(rt: HostRuntime) -> Result<(), Fail> {
    for (place, byte, at) in OUT_OF_RANGE {
        assert!(rt; breaks_at(rt.alloc(), place, byte, 6776, at)?, "at {place}");
    }
    Ok(())
}

/// A length, and where the field begins that is cut.
const CUT: [(usize, u32); 6] = [
    (7, 0),
    (9, 8),
    (17, 14),
    (53, 22),
    (2365, 2334),
    (6775, 6774),
];

#[test]
fn a_field_that_is_cut_is_named(rt: HostRuntime) -> Result<(), Fail> {
    for (len, at) in CUT {
        assert!(rt; breaks_at(rt.alloc(), 0, b'C', len, at)?, "at {len}");
    }
    Ok(())
}

/// The envelope is cut within its ring, whatever length stands before it.
#[test]
fn a_ring_that_is_cut_is_named(rt: HostRuntime) -> Result<(), Fail> {
    assert!(rt; breaks_at(rt.alloc(), 61, 0, 68, 66)?);
    Ok(())
}

#[test]
fn nothing_follows_the_last_field(rt: HostRuntime) -> Result<(), Fail> {
    let mut text = claim_text(rt.alloc(), 1)?;
    text.push(0)?;
    assert!(rt; claim_told(rt.alloc(), &text)?.as_str() == "1 BadForm 6776");
    Ok(())
}
