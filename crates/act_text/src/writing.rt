//! Writing acts and statements as texts.

ghost use Rattle.std.specs.Prelude.{◌≡◌, ◌++◌, ◌<◌, ◌^◌, List, length, IfOk, OnOk};
ghost use Rattle.std.specs.List.{flat_map};
ghost use Rattle.dh_base.specs.Fields.{name_field};
ghost use Rattle.act_text.specs.ActTexts.{TextFits, act_fields, act_text, choice_byte, kind_of, number_of};
ghost use Rattle.act_text.specs.StatementTexts.{row_text, settled_byte, statement_text};

use crate::act::Act;
use crate::statement::{HeldRow, Statement};
use dh_base::{
    List, Name, NoMemory, Outcome, put_id, put_name, put_text, put_u8, put_u16, put_u32, put_u64,
};
use std::alloc::Global;

/// What the text of an act begins with.
pub const ACT_TAG: &[u8; 8] = b"CCDACT01";

/// What the text of a statement begins with.
const STATEMENT_TAG: &[u8; 8] = b"CCDSTAT1";

/// The number of an act's kind.
fn kind_number(act: &Act) -> u8
    ensures { result ≡ number_of (kind_of act.now) }
{
    match act {
        Act::Register { .. } => 1,
        Act::Pay { .. } => 2,
        Act::Escrow { .. } => 3,
        Act::Transfer { .. } => 4,
        Act::StartDeal { .. } => 5,
        Act::Vote { .. } => 6,
    }
}

/// The byte of a choice, as a log record numbers votes.
fn choice_number(choice: Outcome) -> u8
    ensures { result ≡ choice_byte choice }
{
    match choice {
        Outcome::Commit => 2,
        Outcome::Abort => 3,
    }
}

/// The byte that tells how a deal was settled.
fn settled_number(settled: Option<Outcome>) -> u8
    ensures { result ≡ settled_byte settled }
{
    match settled {
        None => 0,
        Some(Outcome::Commit) => 1,
        Some(Outcome::Abort) => 2,
    }
}

/// Appends an amount behind its asset.
fn put_held(out: &mut Vec<u8>, asset: &Name, amount: u64) -> Result<(), NoMemory>
    ensures { OnOk result (out.new.items
        ≡ out.old.items ++ row_text (record { asset = asset.now; amount = amount })) }
{
    put_name(out, asset)?;
    put_u64(out, amount)?;
    Ok(())
}

/// Appends the fields of an act.
fn put_fields(out: &mut Vec<u8>, act: &Act) -> Result<(), NoMemory>
    requires { TextFits act.now }
    ensures { OnOk result (out.new.items ≡ out.old.items ++ act_fields act.now) }
{
    match act {
        Act::Register { text } | Act::StartDeal { text } => put_text(out, text.as_slice())?,
        Act::Pay {
            house,
            ledger,
            to,
            asset,
            amount,
        } => {
            put_id(out, house)?;
            put_name(out, ledger)?;
            put_id(out, to)?;
            put_held(out, asset, *amount)?;
        }
        Act::Escrow {
            deal,
            ledger,
            asset,
            amount,
        } => {
            put_id(out, deal)?;
            put_name(out, ledger)?;
            put_held(out, asset, *amount)?;
        }
        Act::Transfer {
            deal,
            ledger,
            turn,
            to,
            asset,
            amount,
        } => {
            put_id(out, deal)?;
            put_name(out, ledger)?;
            put_u32(out, *turn)?;
            put_id(out, to)?;
            put_held(out, asset, *amount)?;
        }
        Act::Vote {
            deal,
            index,
            choice,
        } => {
            put_id(out, deal)?;
            put_u16(out, *index)?;
            put_u8(out, choice_number(*choice))?;
        }
    }
    Ok(())
}

/// The text of an act. It is read again where the amount is at most 2^63 - 1.
pub fn write_act(alloc: Global, act: &Act) -> Result<List<u8>, NoMemory>
    requires { TextFits act.now }
    ensures { IfOk result (λ text. text ≡ act_text act.now) }
{
    let mut text = Vec::new(alloc);
    text.extend_from_slice(ACT_TAG)?;
    put_u8(&mut text, kind_number(act))?;
    put_fields(&mut text, act)?;
    Ok(List::from_vec(text))
}

/// Appends rows.
fn put_rows(out: &mut Vec<u8>, rows: &[HeldRow]) -> Result<(), NoMemory>
    ensures { OnOk result (out.new.items ≡ out.old.items ++ flat_map row_text rows.now) }
{
    for row in rows {
        put_held(out, &row.asset, row.amount)?;
    }
    Ok(())
}

/// The text of a statement. Its rows are of different assets in ascending order.
pub fn write_statement(alloc: Global, statement: &Statement) -> Result<List<u8>, NoMemory>
    requires { length statement.now.rows < 2 ^ 16 }
    ensures { IfOk result (λ text. text ≡ statement_text statement.now) }
{
    let mut text = Vec::new(alloc);
    text.extend_from_slice(STATEMENT_TAG)?;
    put_id(&mut text, &statement.house)?;
    put_name(&mut text, &statement.ledger)?;
    put_id(&mut text, &statement.deal)?;
    put_id(&mut text, &statement.party)?;
    put_u64(&mut text, statement.at)?;
    put_u32(&mut text, statement.moves)?;
    put_u8(&mut text, settled_number(statement.settled))?;
    put_u16(&mut text, statement.rows.len() as u16)?;
    put_rows(&mut text, statement.rows.as_slice())?;
    Ok(List::from_vec(text))
}
