//! Which texts a signer has signed.

ghost use Rattle.std.specs.Prelude.{◌≡◌, ◌≤◌, length, slice_get};
ghost use Rattle.std.specs.List.{count_by, prefix_len};
ghost use Rattle.joined_deals.specs.Signed.{is_signed, is_unsigned, signs_at};

use dh_base::List;
use key_ring::Signer;

/// Whether that key of the signer has signed the text.
fn signs_at(signer: &Signer, q: u32, text: &[u8]) -> bool
    ensures { result ≡ signs_at text.now (slice_get signer.now.texts q) }
{
    match signer.used_text(q) {
        Some(signed) => signed == text,
        None => false,
    }
}

/// Whether a key of the signer has signed the text.
pub fn is_signed(signer: &Signer, text: &[u8]) -> bool
    ensures { result ≡ is_signed signer.now.texts text.now }
{
    let used = u32::from(signer.used());
    for q in 0..used {
        if signs_at(signer, q, text) {
            return true;
        }
    }
    false
}

/// Whether no key of the signer has signed the text.
fn is_unsigned(signer: &Signer, text: &List<u8>) -> bool
    ensures { result ≡ is_unsigned signer.now.texts text.now }
{
    !is_signed(signer, text.as_slice())
}

/// Whether a key of the signer has signed the text of a list.
fn has_signed(signer: &Signer, text: &List<u8>) -> bool
    ensures { result ≡ is_signed signer.now.texts text.now }
{
    is_signed(signer, text.as_slice())
}

/// How many of the texts are not signed.
pub fn count_unsigned(signer: &Signer, texts: &[List<u8>]) -> usize
    ensures count { result ≡ count_by (is_unsigned signer.now.texts) texts.now }
    ensures few { result ≤ length texts.now }
{
    let mut count = 0;
    for text in texts {
        if is_unsigned(signer, text) {
            count += 1;
        }
    }
    count
}

/// How many of the texts are signed before the first that is not.
pub fn count_front(signer: &Signer, texts: &[List<u8>]) -> usize
    ensures count { result ≡ prefix_len (is_signed signer.now.texts) texts.now }
    ensures few { result ≤ length texts.now }
{
    for (place, text) in texts.iter().enumerate() {
        if !has_signed(signer, text) {
            return place;
        }
    }
    texts.len()
}
