//! The messages of forged envelopes.

ghost use Rattle.std.specs.Prelude.{◌≡◌, IfOk};
ghost use Rattle.std.specs.Option.{option_copied};
ghost use Rattle.act_text.specs.ActTexts.{TextFits};
ghost use Rattle.house_building.specs.Messages.{registering, escrowing, transferring, message_of, act_message};
ghost use Rattle.house_building.specs.Builds.{Gives};

use crate::building::BuildHalt;
use act_text::{Act, write_act};
use dh_base::{Id, List, Name, NoMemory};
use house_grammar::ForgedText;
use house_texts::{DealText, Setting};
use script_lines::ScriptRule;
use std::alloc::Global;

/// The most bytes of a message.
const MOST_MESSAGE: usize = 16384;

fn copied(alloc: Global, bytes: &[u8]) -> Result<List<u8>, NoMemory>
    ensures { IfOk result (λ made. made ≡ bytes.now) }
{
    Ok(List::from_vec(Vec::from_slice(alloc, bytes)?))
}

/// The text of an act.
fn act_message(alloc: Global, act: &Act) -> Result<List<u8>, BuildHalt>
    requires { TextFits act.now }
    ensures { Gives result (act_message act.now) }
{
    Ok(write_act(alloc, act)?)
}

/// The act that registers the deal.
fn registering(alloc: Global, deal: Option<&DealText>) -> Result<List<u8>, BuildHalt>
    ensures { Gives result (registering (option_copied deal.entry)) }
{
    match deal {
        None => Err(BuildHalt::Broken(ScriptRule::UnknownName)),
        Some(deal) => {
            if deal.text.len() > MOST_MESSAGE {
                return Err(BuildHalt::Broken(ScriptRule::TooMany));
            }
            let text = copied(alloc, deal.text.as_slice())?;
            act_message(alloc, &Act::Register { text })
        }
    }
}

/// The act that escrows for the deal.
fn escrowing(
    alloc: Global,
    deal: Option<&DealText>,
    ledger: &Name,
    asset: &Name,
    amount: u64,
) -> Result<List<u8>, BuildHalt>
    ensures { Gives result (escrowing (option_copied deal.entry) ledger.now asset.now amount) }
{
    match deal {
        None => Err(BuildHalt::Broken(ScriptRule::UnknownName)),
        Some(deal) => act_message(
            alloc,
            &Act::Escrow {
                deal: deal.id,
                ledger: *ledger,
                asset: *asset,
                amount,
            },
        ),
    }
}

/// The act that transfers in the deal, at a turn that fits.
fn transferring(
    alloc: Global,
    deal: Option<&DealText>,
    ledger: &Name,
    turn: Option<u32>,
    to: &Id,
    asset: &Name,
    amount: u64,
) -> Result<List<u8>, BuildHalt>
    ensures { Gives result
        (transferring (option_copied deal.entry) ledger.now turn to.now asset.now amount) }
{
    let Some(deal) = deal else {
        return Err(BuildHalt::Broken(ScriptRule::UnknownName));
    };
    match turn {
        None => Err(BuildHalt::Broken(ScriptRule::OutOfRange)),
        Some(turn) => act_message(
            alloc,
            &Act::Transfer {
                deal: deal.id,
                ledger: *ledger,
                turn,
                to: *to,
                asset: *asset,
                amount,
            },
        ),
    }
}

/// The message of that text, or the rule that the text breaks.
pub(crate) fn message_of(
    alloc: Global,
    setting: &Setting,
    text: &ForgedText,
) -> Result<List<u8>, BuildHalt>
    ensures { Gives result (message_of setting.now text.now) }
{
    match text {
        ForgedText::Register { deal } => registering(alloc, setting.deal(deal)),
        ForgedText::Pay {
            ledger,
            to,
            asset,
            amount,
        } => act_message(
            alloc,
            &Act::Pay {
                house: *setting.house(),
                ledger: *ledger,
                to: setting.holders().account_of(to),
                asset: *asset,
                amount: *amount,
            },
        ),
        ForgedText::Escrow {
            deal,
            ledger,
            asset,
            amount,
        } => escrowing(alloc, setting.deal(deal), ledger, asset, *amount),
        ForgedText::Transfer {
            deal,
            ledger,
            turn,
            to,
            asset,
            amount,
        } => {
            let account = setting.holders().account_of(to);
            transferring(
                alloc,
                setting.deal(deal),
                ledger,
                *turn,
                &account,
                asset,
                *amount,
            )
        }
        ForgedText::Bytes { message } => Ok(copied(alloc, message.as_slice())?),
        _ => Err(BuildHalt::Broken(ScriptRule::NotBuilt)),
    }
}
