//! The rows of a part of a book, taken up one by one.

ghost use Rattle.std.specs.Prelude.{◌≡◌, None, IfOk, IfErr};
ghost use Rattle.escrow_book.specs.Base.{IsGoodBase};
ghost use Rattle.escrow_book.specs.PartRows.{no_rows, with_rows, row_number, first_fault, IsPartRefusal};
ghost use Rattle.escrow_book.specs.Taken.{base_taken};

use crate::part_fault::PartFault;
use crate::part_rows::PartRows;
use crate::part_sums::PartSums;
use crate::row::BookRow;
use std::alloc::Global;

/// The number of the row at that place.
fn row_number(place: usize) -> u32
    ensures { result ≡ row_number place }
{
    place.min(u32::MAX as usize) as u32
}

/// The rows, each taken up behind those before it.
pub(crate) fn take_rows(alloc: Global, rows: &[BookRow]) -> Result<PartRows, PartFault>
    ensures ok { IfOk result (λ part. (first_fault no_rows 0 rows.now ≡ None)
        × (base_taken part ≡ with_rows no_rows rows.now)
        × IsGoodBase (base_taken part).0 (base_taken part).1
        × (part.at_hand.items ≡ part.deals.items)) }
    ensures refused { IfErr result (λ fault. IsPartRefusal fault (first_fault no_rows 0 rows.now)) }
{
    let mut part = PartRows {
        alloc,
        free: Vec::new(alloc),
        deals: Vec::new(alloc),
        holds: Vec::new(alloc),
        moves: Vec::new(alloc),
        at_hand: Vec::new(alloc),
        sums: PartSums::new(alloc),
    };
    for place in 0..rows.len() {
        part.add(&rows[place], row_number(place))?;
    }
    Ok(part)
}
