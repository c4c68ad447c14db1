//! What a line builds.

ghost use Rattle.house_holders.specs.Holders.{holder_named};
ghost use Rattle.house_building.specs.Bindings.{envelope_named};
ghost use Rattle.house_building.specs.Messages.{message_of};
ghost use Rattle.std.specs.Option.{option_copied};
ghost use Rattle.house_building.specs.Builds.{sealed, forged_with, flipped_if, binds_new, built_of, Gives, Builds};

use crate::bindings::{Bindings, Bound};
use crate::flipping::flipped;
use crate::message::message_of;
use dh_base::{Name, NoMemory};
use house_grammar::{Building, ForgedText};
use house_holders::DeclaredHolder;
use house_texts::Setting;
use key_ring::Envelope;
use script_lines::ScriptRule;
use std::alloc::Global;

/// The most bytes of a message.
const MOST_MESSAGE: usize = 16384;

/// Why a line builds nothing.
#[derive(Clone, Copy, PartialEq, Eq)]
pub enum BuildHalt {
    /// It breaks the rule.
    Broken(ScriptRule),
    NoMemory,
}

impl From<NoMemory> for BuildHalt {
    ghost use Rattle.std.specs.Prelude.{◌≡◌};
    ghost use Rattle.house_building.specs.declared.building.BuildHalt.TheVariants.{NoMemory as OutOfMemory};

    ghost from_gives = { λ _ halt. halt ≡ OutOfMemory };

    fn from(_error: NoMemory) -> BuildHalt {
        BuildHalt::NoMemory
    }
}

/// The envelope in which that key of the holder signs the message.
fn sealed(
    alloc: Global,
    holder: &DeclaredHolder,
    key: Option<u32>,
    message: &[u8],
) -> Result<Envelope, BuildHalt>
    ensures { Gives result (sealed holder.now key message.now) }
{
    if message.len() > MOST_MESSAGE {
        return Err(BuildHalt::Broken(ScriptRule::TooMany));
    }
    let Some(q) = key else {
        return Err(BuildHalt::Broken(ScriptRule::OutOfRange));
    };
    if u32::from(holder.size()) <= q {
        return Err(BuildHalt::Broken(ScriptRule::OutOfRange));
    }
    Ok(holder.sign(alloc, q, message)?)
}

/// The envelope that is forged so.
fn forged(
    alloc: Global,
    setting: &Setting,
    holder: &Name,
    key: Option<u32>,
    text: &ForgedText,
) -> Result<Envelope, BuildHalt>
    ensures { Gives result (forged_with (holder_named setting.now.holders holder.now) key
        (message_of setting.now text.now)) }
{
    let Some(holder) = setting.holders().find(holder) else {
        return Err(BuildHalt::Broken(ScriptRule::UnknownName));
    };
    let message = message_of(alloc, setting, text)?;
    sealed(alloc, holder, key, message.as_slice())
}

/// The envelope with a changed signature.
fn flipped_if(alloc: Global, envelope: Option<&Envelope>) -> Result<Envelope, BuildHalt>
    ensures { Gives result (flipped_if (option_copied envelope.entry)) }
{
    match envelope {
        None => Err(BuildHalt::Broken(ScriptRule::UnknownName)),
        Some(envelope) => Ok(flipped(alloc, envelope)?),
    }
}

/// Binds the name to an envelope that is forged.
fn forge(
    alloc: Global,
    setting: &Setting,
    bound: &mut Bindings,
    name: &Name,
    holder: &Name,
    key: Option<u32>,
    text: &ForgedText,
) -> Result<(), BuildHalt>
    ensures { Builds result bound.old bound.new (binds_new bound.old name.now
        (forged_with (holder_named setting.now.holders holder.now) key
        (message_of setting.now text.now))) }
{
    if bound.is_bound(name) {
        return Err(BuildHalt::Broken(ScriptRule::NameTwice));
    }
    let envelope = forged(alloc, setting, holder, key, text)?;
    Ok(bound.bind(name, Bound::Enveloped(envelope))?)
}

/// Binds the name to the envelope with a changed signature.
fn flip(alloc: Global, bound: &mut Bindings, name: &Name, envelope: &Name) -> Result<(), BuildHalt>
    ensures { Builds result bound.old bound.new (binds_new bound.old name.now
        (flipped_if (envelope_named bound.old envelope.now))) }
{
    if bound.is_bound(name) {
        return Err(BuildHalt::Broken(ScriptRule::NameTwice));
    }
    let made = flipped_if(alloc, bound.envelope(envelope))?;
    Ok(bound.bind(name, Bound::Enveloped(made))?)
}

/// Does what the line says. It changes nothing where it breaks a rule.
pub fn build(
    alloc: Global,
    setting: &Setting,
    bound: &mut Bindings,
    item: &Building,
) -> Result<(), BuildHalt>
    ensures { Builds result bound.old bound.new (built_of setting.now bound.old item.now) }
{
    match item {
        Building::Forge {
            envelope,
            holder,
            key,
            text,
        } => forge(alloc, setting, bound, envelope, holder, *key, text),
        Building::Flip {
            flipped: name,
            envelope,
        } => flip(alloc, bound, name, envelope),
        _ => Err(BuildHalt::Broken(ScriptRule::NotBuilt)),
    }
}
