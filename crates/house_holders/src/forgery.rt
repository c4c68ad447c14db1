//! Forgeries.

ghost use Rattle.std.specs.Prelude.{◌≡◌};
ghost use Rattle.std.specs.List.{find};
ghost use Rattle.std.specs.Option.{option_copied};
ghost use Rattle.dh_base.specs.Ids.{same_id};
ghost use Rattle.house_holders.specs.Forgeries.{is_kept, forged_under, forgery_of};

use crate::compliant::Compliant;
use dh_base::{Id, Name};
use key_ring::{Envelope, Said, check};

/// The table in which a keeper has the texts that its holder has signed.
const USED_TAB: u8 = 8;

/// Whose signature is forged, and under which of its keys.
#[derive(Clone, Copy, PartialEq, Eq)]
pub struct Forgery {
    pub name: Name,
    pub q: u32,
}

/// The first of the holders that has the account.
fn holder_of<'a>(holders: &'a [Compliant], account: &Id) -> Option<&'a Compliant>
    ensures { option_copied result
        ≡ find (λ holder. same_id account.now holder.account) holders.now }
{
    holders.iter().find(|holder| account == holder.account())
}

/// Whether the keeper has the message as the text that the key has signed.
fn is_kept(holder: &Compliant, q: u32, message: &[u8]) -> bool
    ensures { result ≡ is_kept holder.now.keeper.tables q message.now }
{
    match holder.keeper().peek(USED_TAB, &q.to_be_bytes()) {
        None => false,
        Some(text) => text == message,
    }
}

/// The forgery that a message is which is said under an account and a key.
fn forged_under(said: &Said, message: &[u8], holder: Option<&Compliant>) -> Option<Forgery>
    ensures { result ≡ forged_under said.now message.now (option_copied holder.entry) }
{
    match holder {
        None => None,
        Some(holder) => {
            if is_kept(holder, said.q, message) {
                None
            } else {
                Some(Forgery {
                    name: *holder.name(),
                    q: said.q,
                })
            }
        }
    }
}

/// The forgery that the envelope is: it says a message under the key of a compliant holder, whose
/// keeper has not the message as the text that the key has signed.
pub fn forgery_of(holders: &[Compliant], env: &Envelope) -> Option<Forgery>
    ensures { result ≡ forgery_of holders.now env.now }
{
    match check(env) {
        Err(_) => None,
        Ok(said) => forged_under(
            &said,
            env.message.as_slice(),
            holder_of(holders, &said.account),
        ),
    }
}
