//! Laws of the texts of sets and of what their seats sign, and of quorums.

ghost use Rattle.std.specs.Prelude.{◌≡◌, ◌↔◌, ◌+◌, ◌≤◌, Bool, List, ℕ, length, Ok};
ghost use Rattle.dh_base.specs.Fields.{AreBytes};
ghost use Rattle.cert_core.specs.Sets.{SetTold, IsSet, HasSeats, set_text};
ghost use Rattle.cert_core.specs.SetReading.{set_of};
ghost use Rattle.cert_core.specs.SeatTexts.{SeatText, HasWidths, seat_text};
ghost use Rattle.cert_core.specs.Quorums.{IsQuorum, HaveByteRings, quorum_of};
ghost use Rattle.cert_core.specs.SharedSeats.{FewDeviate, SharedSeat, count_seats, signs_both};
ghost use Rattle.cert_core.specs.declared.seat_sig.SeatSig.{SeatSig};

/// A text is read as a set exactly where it is the text of that set.
pub fn sets_read()
    ensures { (text : List ℕ) (set : SetTold) → AreBytes text →
        (set_of text ≡ Ok set) ↔ (IsSet set × (text ≡ set_text set)) }
{}

/// What a seat signs spells one prefix, or one handover, of one set.
pub fn seat_texts_differ()
    ensures { (one other : SeatText) → HasWidths one → HasWidths other →
        seat_text one ≡ seat_text other → one ≡ other }
{}

/// Signatures have no broken part exactly where they are a quorum, and then each of them counts.
pub fn quorums_found()
    ensures { (set : SetTold) (text : List ℕ) (sigs : List SeatSig) (counted : ℕ) →
        HaveByteRings sigs →
        (quorum_of set text sigs ≡ Ok counted)
        ↔ (IsQuorum set text sigs × (counted ≡ length sigs)) }
{}

/// Two quorums of one set share at least f + 1 seats, and so one that complies, where at most f
/// don't.
pub fn quorums_share()
    ensures seats { (set : SetTold) (text other : List ℕ) (sigs others : List SeatSig) →
        HasSeats set → IsQuorum set text sigs → IsQuorum set other others →
        set.f + 1 ≤ count_seats (signs_both sigs others) (length set.seats) }
    ensures complying { (set : SetTold) (text other : List ℕ) (sigs others : List SeatSig)
        (complies : ℕ → Bool) → HasSeats set → FewDeviate set complies →
        IsQuorum set text sigs → IsQuorum set other others → SharedSeat complies sigs others }
{}
