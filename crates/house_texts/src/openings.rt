//! With what a ledger opens.

ghost use Rattle.std.specs.Prelude.{◌≡◌, IfOk};
ghost use Rattle.house_texts.specs.Openings.{open_by, opening_rows, opening_of, ledger_names};

use cert_core::Set;
use dh_base::{List, Name, NoMemory};
use house_grammar::Declaration;
use house_holders::Holders;
use ledger_core::{OpenRow, Opening};
use std::alloc::Global;

/// The row that the line opens on the ledger.
fn open_by(holders: &Holders, ledger: &Name, declaration: &Declaration) -> Option<OpenRow>
    ensures { result ≡ open_by holders.now ledger.now declaration.now }
{
    match declaration {
        Declaration::Open {
            ledger: on,
            asset,
            party,
            amount,
        } => {
            if ledger == on {
                Some(OpenRow {
                    asset: *asset,
                    account: holders.account_of(party),
                    amount: *amount,
                })
            } else {
                None
            }
        }
        _ => None,
    }
}

/// The rows that the lines open on the ledger.
fn opening_rows(
    alloc: Global,
    declarations: &[Declaration],
    holders: &Holders,
    ledger: &Name,
) -> Result<Vec<OpenRow>, NoMemory>
    ensures { IfOk result (λ rows. rows.items
        ≡ opening_rows declarations.now holders.now ledger.now) }
{
    let mut rows = Vec::new(alloc);
    for declaration in declarations {
        if let Some(row) = open_by(holders, ledger, declaration) {
            rows.push(row)?;
        }
    }
    Ok(rows)
}

/// The opening of the ledger.
pub fn opening_of(
    alloc: Global,
    declarations: &[Declaration],
    holders: &Holders,
    genesis: &Set,
    ledger: &Name,
) -> Result<Opening, NoMemory>
    ensures { IfOk result (λ opening. opening
        ≡ opening_of declarations.now holders.now genesis.now ledger.now) }
{
    let rows = opening_rows(alloc, declarations, holders, ledger)?;
    Ok(Opening {
        name: *ledger,
        genesis: genesis.copied(),
        rows: List::from_vec(rows),
    })
}

/// The names of the ledgers, in the order of their declarations.
pub fn ledger_names(alloc: Global, declarations: &[Declaration]) -> Result<Vec<Name>, NoMemory>
    ensures { IfOk result (λ names. names.items ≡ ledger_names declarations.now) }
{
    let mut names = Vec::new(alloc);
    for declaration in declarations {
        if let Declaration::Ledger { name } = declaration {
            names.push(*name)?;
        }
    }
    Ok(names)
}
