//! The opening rows of a ledger, and its book.

ghost use Rattle.std.specs.Prelude.{◌≡◌, IfOk};
ghost use Rattle.escrow_book.specs.Reached.{started};
ghost use Rattle.plain_script.specs.OpeningRows.{rows_of};

use dh_base::{Id, Name, NoMemory};
use escrow_book::Book;
use plain_script::{Declaration, Declarations, plain_id};
use std::alloc::Global;

/// The rows that the declarations open on the ledger, in the order of their lines.
pub fn opening_rows(
    alloc: Global,
    declarations: &[Declaration],
    ledger: &Name,
) -> Result<Vec<(Id, Name, u64)>, NoMemory>
    ensures { IfOk result (λ rows. rows.items ≡ rows_of declarations.now ledger.now) }
{
    let mut rows = Vec::new(alloc);
    for declaration in declarations {
        if let Declaration::Open {
            ledger: on,
            asset,
            party,
            amount,
        } = declaration
        {
            if ledger == on {
                rows.push((plain_id(party), *asset, *amount))?;
            }
        }
    }
    Ok(rows)
}

/// The book of the ledger, which starts with the rows that are declared for it.
pub fn start_book(
    alloc: Global,
    declarations: &Declarations,
    ledger: &Name,
) -> Result<Book, NoMemory>
    ensures { IfOk result (λ book. book ≡ started (rows_of declarations.now ledger.now)) }
{
    let rows = opening_rows(alloc, declarations.as_slice(), ledger)?;
    Book::start(alloc, &rows)
}
