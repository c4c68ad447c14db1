//! Laws of the texts of acts.

ghost use Rattle.std.specs.Prelude.{◌≡◌, ◌↔◌, ℕ, List, Ok};
ghost use Rattle.dh_base.specs.Fields.{AreBytes};
ghost use Rattle.act_text.specs.ActTexts.{ActFits, act_text, kind_of, office_of};
ghost use Rattle.act_text.specs.ActReading.{act_of};
ghost use Rattle.act_text.specs.declared.act.Act.{Act};
ghost use Rattle.act_text.specs.declared.office.Office.{Office};

/// Bytes are read as an act of an office exactly where they are its text.
pub fn acts_read()
    ensures { (office : Office) (bytes : List ℕ) (act : Act) → AreBytes bytes →
        (act_of office bytes ≡ Ok act)
        ↔ ((office_of (kind_of act) ≡ office) × ActFits act × (bytes ≡ act_text act)) }
{}
