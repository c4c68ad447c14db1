//! What an envelope says.

ghost use Rattle.std.specs.Prelude.{◌≡◌, ◌↔◌, ◌<◌, ◌^◌, ℕ, length, Ok, Err};
ghost use Rattle.key_ring.specs.Rings.{ring_of};
ghost use Rattle.key_ring.specs.Saying.{Says, IsKeyOutside, IsBadlySigned};
ghost use Rattle.key_ring.specs.Answering.{IsAnswer, said_of};
ghost use Rattle.key_ring.specs.declared.said.Said.{Said};

use crate::env_fault::EnvFault;
use crate::envelope::Envelope;
use crate::ring::{account_of, ident_of, key_at, ring_size};
use dh_base::Id;
use ots_core::verify;

/// The account and the key number under which an envelope says its message.
#[derive(Clone, Copy, Debug, PartialEq, Eq)]
pub struct Said {
    pub account: Id,
    pub q: u32,
}

/// What the envelope says, or why it says nothing.
fn answer(env: &Envelope) -> Result<Said, EnvFault>
    ensures { IsAnswer env.now result }
{
    let ring = env.ring.as_slice();
    let n = match ring_size(ring) {
        Ok(n) => n,
        Err(at) => return Err(EnvFault::BadRing { at }),
    };
    if u32::from(n) <= env.q {
        return Err(EnvFault::KeyOutside { q: env.q, n });
    }
    let key = key_at(ring, env.q as usize);
    if !verify(
        &ident_of(ring),
        env.q,
        &key,
        env.message.as_slice(),
        &env.sig,
    ) {
        return Err(EnvFault::BadSignature);
    }
    Ok(Said {
        account: account_of(ring),
        q: env.q,
    })
}

/// The account and the key number under which the envelope says its message. Every reader of acts,
/// statements and claims asks it before it looks at a message.
pub fn check(env: &Envelope) -> Result<Said, EnvFault>
    ensures says { (said : Said) → (result ≡ Ok said)
        ↔ Says env.now said.account.0 said.q env.now.message }
    ensures bad_ring { (at : ℕ) → (result ≡ Err (EnvFault.BadRing at))
        ↔ (ring_of env.now.ring ≡ Err at) }
    ensures key_outside { (q n : ℕ) → (result ≡ Err (EnvFault.KeyOutside q n))
        ↔ IsKeyOutside env.now q n }
    ensures bad_signature { (result ≡ Err EnvFault.BadSignature) ↔ IsBadlySigned env.now }
    ensures exact { result ≡ said_of env.now }
{
    answer(env)
}
