//! What a seat signs.

ghost use Rattle.std.specs.Prelude.{◌≡◌, ◌≤◌, ◌<◌, ◌^◌, length, slice_get, is_some};
ghost use Rattle.key_ring.specs.Signers.{key_of};
ghost use Rattle.seat_rows.specs.SeatTexts.{prefix_of, handover_of, has_handed, is_text};

use crate::place::SeatPlace;
use crate::state::SeatState;
use cert_core::{Set, handover_text, prefix_text, set_id};
use key_ring::Signer;
use vote_log::{LogRecord, head_of};

/// What the seat signs of the first so many records.
pub fn text_of_prefix(place: &SeatPlace, recs: &[LogRecord], len: u32) -> [u8; 76]
    requires { len ≤ length recs.now }
    ensures { result ≡ prefix_of place.now recs.now len }
{
    let head = head_of(&place.house(), &recs[..len as usize]);
    prefix_text(&place.set_id(), len, &head)
}

/// What the seat signs when it hands these records, which are all of its list, over to that set.
pub fn text_of_handover(place: &SeatPlace, recs: &[LogRecord], next: &Set) -> [u8; 108]
    requires { length recs.now < 2 ^ 32 }
    ensures { result ≡ handover_of place.now recs.now next.now }
{
    let head = head_of(&place.house(), recs);
    handover_text(&place.set_id(), recs.len() as u32, &head, &set_id(next))
}

/// Whether that key has signed the text.
fn is_signed_by(signer: &Signer, q: u32, text: &[u8]) -> bool
    ensures { result ≡ is_text (slice_get signer.now.texts q) text.now }
{
    match signer.used_text(q) {
        Some(signed) => signed == text,
        None => false,
    }
}

/// Whether a key has signed the text.
fn has_signed(signer: &Signer, text: &[u8]) -> bool
    ensures { result ≡ is_some (key_of signer.now text.now) }
{
    for q in 0..u32::from(signer.used()) {
        if is_signed_by(signer, q, text) {
            return true;
        }
    }
    false
}

/// Whether the seat has signed the handover for which it is closed.
pub fn has_handed(place: &SeatPlace, state: &SeatState) -> bool
    ensures { result ≡ has_handed place.now state.now }
{
    match &state.closing {
        None => false,
        Some(closing) => {
            let text = text_of_handover(place, state.log.recs(), &closing.next);
            has_signed(&state.signer, &text)
        }
    }
}
