//! Laws of the texts of rings and envelopes, one for each field and one for each text, of what is
//! made from a seed, and of signers and what is kept of them.

ghost use Rattle.std.specs.Prelude.{◌≡◌, ◌↔◌, ◌≤◌, ◌<◌, ◌+◌, ◌^◌, ◌++◌, ℕ, List, length, Some, Ok};
ghost use Rattle.sha2.specs.Sha256.{sha256};
ghost use Rattle.dh_base.specs.Fields.{AreBytes, StandsAt};
ghost use Rattle.ots_core.specs.SignatureText.{IsSized, sig_text};
ghost use Rattle.ots_core.specs.declared.ots_sig.OtsSig.{OtsSig};
ghost use Rattle.key_ring.specs.Rings.{Ring, IsRing, most_keys, ring_text, ring_of};
ghost use Rattle.dh_base.specs.Formats.{text_field};
ghost use Rattle.key_ring.specs.EnvelopeTexts.{text_at, sig_at, envelope_text, envelope_from, envelope_of, IsReadAt, IsWithinLimits};
ghost use Rattle.key_ring.specs.Making.{ring_made, envelope_made};
ghost use Rattle.key_ring.specs.Saying.{Says};
ghost use Rattle.keeper_core.specs.Tables.{Tables};
ghost use Rattle.keeper_core.specs.declared.row.Row.{Row};
ghost use Rattle.key_ring.specs.Signers.{SignerTold, key_of, key_for, after_signing};
ghost use Rattle.key_ring.specs.UsedTexts.{used_tab, StandsFor, LacksForm};
ghost use Rattle.key_ring.specs.declared.envelope.Envelope.{Envelope};
ghost use Rattle.key_ring.specs.declared.reading.EnvelopeAt.{EnvelopeAt};

/// A text is the text of a ring exactly where it is read as that ring.
pub fn rings_read()
    ensures { (text : List ℕ) (ring : Ring) → AreBytes text →
        (ring_of text ≡ Ok ring) ↔ (IsRing ring × (text ≡ ring_text ring)) }
{}

/// A text behind its length is taken at a place exactly where it stands there, and has at most that
/// many bytes.
pub fn texts_taken()
    ensures { (most : ℕ) (bytes text : List ℕ) (at next : ℕ) → AreBytes bytes → most < 2 ^ 32 →
        (text_at most bytes at ≡ Ok (text, next))
        ↔ ((length text ≤ most) × StandsAt (text_field text) bytes at
        × (next ≡ at + length (text_field text))) }
{}

/// A signature is taken at a place exactly where it stands there.
pub fn signatures_taken()
    ensures { (bytes : List ℕ) (sig : OtsSig) (at : ℕ) → AreBytes bytes →
        (sig_at bytes at ≡ Ok sig) ↔ (IsSized sig × StandsAt (sig_text sig) bytes at) }
{}

/// An envelope is taken at a place exactly where its text stands there.
pub fn envelopes_taken()
    ensures { (bytes : List ℕ) (at : ℕ) (read : EnvelopeAt) → AreBytes bytes →
        (envelope_from bytes at ≡ Ok read) ↔ IsReadAt bytes at read }
{}

/// Bytes are read as an envelope exactly where they are its text.
pub fn envelopes_read()
    ensures { (bytes : List ℕ) (env : Envelope) → AreBytes bytes →
        (envelope_of bytes ≡ Ok env) ↔ (IsWithinLimits env × (bytes ≡ envelope_text env)) }
{}

/// The envelope in which a key of a ring signs a message says that message under the ring's
/// account.
pub fn made_says()
    ensures { (seed ident message : List ℕ) (size q : ℕ) → length ident ≡ 16 → size ≤ most_keys
        → q < size →
        Says (envelope_made seed ident size q message)
        (sha256 (ring_text (ring_made seed ident size))) q message }
{}

/// A text that is signed belongs to its key from then on, whatever is signed later.
pub fn same_key_again()
    ensures signed { (signer : SignerTold) (text : List ℕ)
        → key_of (after_signing signer text) text ≡ Some (key_for signer text) }
    ensures stays { (signer : SignerTold) (text : List ℕ) (q : ℕ) (more : List (List ℕ))
        → key_of signer text ≡ Some q →
        key_of (record signer { texts = signer.texts ++ more }) text ≡ Some q }
{}

/// The rows that stand for a signer's texts are loaded as these texts: they stand for no others,
/// and none of them is amiss.
pub fn loaded_again()
    ensures texts { (tables : Tables) (texts others : List (List ℕ)) → StandsFor tables texts
        → StandsFor tables others → texts ≡ others }
    ensures rows { (tables : Tables) (texts : List (List ℕ)) (size : ℕ) (row : Row)
        → StandsFor tables texts → length texts ≤ size →
        ¬ (LacksForm size (Some tables) used_tab row) }
{}
