//! Laws of certificates, and of the texts of links and claims.

ghost use Rattle.std.specs.Prelude.{◌≡◌, ◌↔◌, List, ℕ, Ok};
ghost use Rattle.dh_base.specs.Fields.{AreBytes};
ghost use Rattle.cert_core.specs.Sets.{SetTold};
ghost use Rattle.claim_core.specs.Certificates.{Certifies, HasByteRings, certified_by};
ghost use Rattle.claim_core.specs.FirstBroken.{certified_of};
ghost use Rattle.claim_core.specs.ClaimTexts.{LinkFits, ClaimFits, LinkHasText, ClaimHasText, link_text, claim_text};
ghost use Rattle.claim_core.specs.ClaimReading.{link_of, claim_of};
ghost use Rattle.claim_core.specs.declared.certificate.Certified.{Certified};
ghost use Rattle.claim_core.specs.declared.claim.Claim.{Claim};
ghost use Rattle.claim_core.specs.declared.link.Link.{Link};

/// A claim has no broken part exactly where it certifies, and then what is certified is told.
pub fn certificates_found()
    ensures { (genesis : SetTold) (claim : Claim) (told : Certified) → HasByteRings claim →
        (certified_of genesis claim ≡ Ok told)
        ↔ ((set : SetTold) × Certifies genesis claim set × (told ≡ certified_by set claim)) }
{}

/// Bytes are read as a link, or as a claim, exactly where they are its text.
pub fn claims_read()
    ensures links { (bytes : List ℕ) (link : Link) → AreBytes bytes →
        (link_of bytes ≡ Ok link) ↔ (LinkFits link × (bytes ≡ link_text link)) }
    ensures claims { (bytes : List ℕ) (claim : Claim) → AreBytes bytes →
        (claim_of bytes ≡ Ok claim) ↔ (ClaimFits claim × (bytes ≡ claim_text claim)) }
{}

/// What is read can be written again.
pub fn read_is_writable()
    ensures links { (link : Link) → LinkFits link → LinkHasText link }
    ensures claims { (claim : Claim) → ClaimFits claim → ClaimHasText claim }
{}
