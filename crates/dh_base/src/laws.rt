//! Laws of the fields of byte texts: what is put stands where the text ended before, and a field
//! that stands at a place is the one that is taken there, and no other is. And a law of the texts
//! of refusals.

ghost use Rattle.std.specs.Prelude.{◌≡◌, ◌↔◌, ◌+◌, ◌≤◌, ◌∷◌, ◌++◌, ℕ, List, length, Ok, IsTrue};
ghost use Rattle.std.specs.Int.{w8, w16, w32, w64};
ghost use Rattle.std.specs.List.{flat_map};
ghost use Rattle.dh_base.specs.Refusals.{Told, told_text, held_text, refusal_text};
ghost use Rattle.dh_base.specs.Names.{is_name};
ghost use Rattle.dh_base.specs.Fields.{AreBytes, StandsAt, TakenWhereItStands, bytes_at, name_field, name_at};

/// What is put stands where the text ended before, whatever is put behind it.
pub fn put_stands()
    ensures { (before field behind : List ℕ) →
        StandsAt field (before ++ field ++ behind) (length before) }
{}

/// Two texts stand one behind the other exactly where they stand joined.
pub fn joined_stand()
    ensures { (first second bytes : List ℕ) (at : ℕ) →
        StandsAt (first ++ second) bytes at
        ↔ (StandsAt first bytes at × StandsAt second bytes (at + length first)) }
{}

/// A number is taken at a place exactly where it stands there.
pub fn numbers_taken()
    ensures one_byte { TakenWhereItStands w8 }
    ensures two_bytes { TakenWhereItStands w16 }
    ensures four_bytes { TakenWhereItStands w32 }
    ensures eight_bytes { TakenWhereItStands w64 }
{}

/// Bytes of a given number, such as those of an id, are taken at a place exactly where they stand
/// there.
pub fn bytes_taken()
    ensures { (n : ℕ) (bytes field : List ℕ) (at : ℕ) →
        (bytes_at n bytes at ≡ Ok field) ↔ ((length field ≡ n) × StandsAt field bytes at) }
{}

/// A name is taken at a place exactly where it stands there.
pub fn names_taken()
    ensures { (bytes name : List ℕ) (at : ℕ) → AreBytes bytes →
        (name_at bytes at ≡ Ok name)
        ↔ (IsTrue (is_name name) × StandsAt (name_field name) bytes at) }
{}

/// A refusal that holds at most seven is printed whole.
pub fn refusals_printed_whole()
    ensures { (own : Told) (held : List Told) → length held ≤ 7 →
        refusal_text (own ∷ held) ≡ told_text own ++ flat_map held_text held }
{}
