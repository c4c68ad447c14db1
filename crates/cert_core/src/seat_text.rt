//! The texts that the seats of a set sign.

ghost use Rattle.std.specs.Prelude.{◌≡◌, ◌≤◌, ◌+◌, ◌++◌, List, ℕ, length, take};
ghost use Rattle.std.specs.Int.{w32, to_be_bytes};
ghost use Rattle.cert_core.specs.SeatTexts.{prefix_text, handover_text};

use dh_base::Id;

/// What the text about a prefix of the log begins with.
const PREFIX_TAG: &[u8; 8] = b"CCDPREF1";

/// What the text of a handover begins with.
const HANDOVER_TAG: &[u8; 8] = b"CCDHAND1";

/// Puts a field behind the first bytes of a text.
fn put_behind(text: &mut [u8], at: usize, field: &[u8])
    requires { at + length field.now ≤ length text.old }
    ensures { take (at + length field.now) text.new ≡ take at text.old ++ field.now }
{
    text[at..at + field.len()].copy_from_slice(field);
}

/// Begins a text with a tag, the set that signs, how many records there are, and their head.
fn begin(text: &mut [u8], tag: &[u8; 8], set: &Id, len: u32, head: &Id)
    requires { 76 ≤ length text.old }
    ensures { take 76 text.new ≡ tag.now ++ set.now.0 ++ to_be_bytes w32 len ++ head.now.0 }
{
    put_behind(text, 0, tag);
    put_behind(text, 8, &set.0);
    put_behind(text, 40, &len.to_be_bytes());
    put_behind(text, 44, &head.0);
}

/// The text by which a seat says that the first `len` records of its log have that head.
pub fn prefix_text(set: &Id, len: u32, head: &Id) -> [u8; 76]
    ensures { result ≡ prefix_text set.now len head.now }
{
    let mut text = [0; 76];
    begin(&mut text, PREFIX_TAG, set, len, head);
    text
}

/// The text by which a seat closes its log at `len` records with that head, and hands it over to
/// the next set.
pub fn handover_text(set: &Id, len: u32, head: &Id, next: &Id) -> [u8; 108]
    ensures { result ≡ handover_text set.now len head.now next.now }
{
    let mut text = [0; 108];
    begin(&mut text, HANDOVER_TAG, set, len, head);
    put_behind(&mut text, 76, &next.0);
    text
}
