//! The holders that keep to their program.

ghost use Rattle.std.specs.Prelude.{◌≡◌, IfOk};
ghost use Rattle.std.specs.List.{filter_map};
ghost use Rattle.house_holders.specs.Compliant.{compliant_by, compliant_of};

use crate::holders::DeclaredHolder;
use dh_base::{Id, Name, NoMemory};
use house_grammar::Conduct;
use keeper_core::MemKeeper;
use std::alloc::Global;
use std::marker::Model;

/// A holder that keeps to its program, with its keeper.
#[derive(Drop)]
pub struct Compliant {
    name: Name,
    account: Id,
    keeper: MemKeeper,
}

impl Model for Compliant {
    ghost use Rattle.house_holders.specs.Compliant.{CompliantTold, compliant_code};

    ghost Value = { CompliantTold };

    ghost coded = { compliant_code };

    ghost view = { λ h. record { name = h.name; account = h.account; keeper = h.keeper } };
}

impl Compliant {
    pub fn name(&self) -> &Name
        ensures { result.now ≡ self.now.name }
    {
        &self.name
    }

    pub fn account(&self) -> &Id
        ensures { result.now ≡ self.now.account }
    {
        &self.account
    }

    pub fn keeper(&self) -> &MemKeeper
        ensures { result.now ≡ self.now.keeper }
    {
        &self.keeper
    }
}

/// The holder with a keeper of no rows, if it keeps to its program.
fn compliant_by(alloc: Global, holder: &DeclaredHolder) -> Option<Compliant>
    ensures { result ≡ compliant_by holder.now }
{
    match holder.conduct() {
        Conduct::Deviant => None,
        Conduct::Honest => Some(Compliant {
            name: *holder.name(),
            account: *holder.account(),
            keeper: MemKeeper::new(alloc),
        }),
    }
}

/// Those of the holders that keep to their program, each with a keeper of no rows.
pub fn compliant_of(alloc: Global, holders: &[DeclaredHolder]) -> Result<Vec<Compliant>, NoMemory>
    ensures { IfOk result (λ compliant. compliant.items ≡ compliant_of holders.now) }
{
    let mut compliant = Vec::new(alloc);
    for holder in holders {
        if let Some(found) = compliant_by(alloc, holder) {
            compliant.push(found)?;
        }
    }
    Ok(compliant)
}
