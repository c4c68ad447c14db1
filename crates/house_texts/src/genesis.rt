//! The first set of a house.

ghost use Rattle.std.specs.Prelude.{◌≡◌, ◌++◌, IfOk, OnOk, map};
ghost use Rattle.std.specs.List.{flat_map};
ghost use Rattle.cert_core.specs.Sets.{id_bytes};
ghost use Rattle.house_holders.specs.Holders.{account_named};
ghost use Rattle.house_texts.specs.Genesis.{faults_of, first_set_text, set_told_text, genesis_set};

use cert_core::{Set, read_set};
use dh_base::{Name, NoMemory, put_id, put_u16, put_u32};
use house_grammar::Declaration;
use house_holders::Holders;
use std::alloc::Global;

/// How many faulty seats a set tolerates: at most 5.
fn faults_of(faults: Option<u32>) -> u16
    ensures { result ≡ faults_of faults }
{
    match faults {
        None => 0,
        Some(faults) => { if faults <= 5 { faults as u16 } else { 0 } }
    }
}

fn put_accounts(out: &mut Vec<u8>, holders: &Holders, seats: &[Name]) -> Result<(), NoMemory>
    ensures { OnOk result (out.new.items ≡ out.old.items
        ++ flat_map (λ seat. (account_named holders.now seat).0) seats.now) }
{
    for seat in seats {
        put_id(out, &holders.account_of(seat))?;
    }
    Ok(())
}

/// The text of a set of these seats.
fn set_text(
    alloc: Global,
    holders: &Holders,
    epoch: Option<u32>,
    faults: Option<u32>,
    seats: &[Name],
) -> Result<Vec<u8>, NoMemory>
    ensures { IfOk result (λ text. text.items
        ≡ set_told_text holders.now epoch faults seats.now) }
{
    let mut text = Vec::from_slice(alloc, b"CCDSET01")?;
    put_u32(&mut text, epoch.unwrap_or(0))?;
    put_u16(&mut text, faults_of(faults))?;
    put_accounts(&mut text, holders, seats)?;
    Ok(text)
}

/// The text of the first set that the lines declare, and nothing where they declare none.
fn first_set_text(
    alloc: Global,
    holders: &Holders,
    declarations: &[Declaration],
) -> Result<Vec<u8>, NoMemory>
    ensures { IfOk result (λ text. text.items ≡ first_set_text holders.now declarations.now) }
{
    for declaration in declarations {
        if let Declaration::Set {
            epoch,
            faults,
            seats,
            ..
        } = declaration
        {
            return set_text(alloc, holders, *epoch, *faults, seats.as_slice());
        }
    }
    Ok(Vec::new(alloc))
}

/// The first set. There is none where the text spells none, which no house declares whose accounts
/// differ; then memory is said to be wanting.
pub fn genesis_set(
    alloc: Global,
    holders: &Holders,
    declarations: &[Declaration],
) -> Result<Set, NoMemory>
    ensures { IfOk result (λ set. set ≡ genesis_set holders.now declarations.now) }
{
    let text = first_set_text(alloc, holders, declarations)?;
    if text.len() > 1000 {
        return Err(NoMemory);
    }
    match read_set(&text) {
        Ok(set) => Ok(set),
        Err(_) => Err(NoMemory),
    }
}
