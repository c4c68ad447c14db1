//! Signers.

ghost use Rattle.std.specs.Prelude.{◌≡◌, ◌↔◌, ◌≤◌, ◌<◌, ◌+◌, ℕ, [], ◌∷◌, length, slice_get, None, Err, MatchResult, IfOk, IfErr, IfSome, OnOk, OnErr};
ghost use Rattle.std.specs.Option.{option_copied};
ghost use Rattle.std.specs.Result.{IsErrOf};
ghost use Rattle.keeper_core.specs.Tables.{rows_of};
ghost use Rattle.keeper_core.specs.Knowing.{FailsNext, LooksAtMost};
ghost use Rattle.keeper_core.specs.Leaving.{Leaves, ended, of_store_fault};
ghost use Rattle.keeper_core.specs.StoreFaults.{HasCause};
ghost use Rattle.key_ring.specs.Saying.{Says};
ghost use Rattle.key_ring.specs.Signers.{signer_ring, signer_account, key_of, key_for, envelope_by, with_text, after_signing, IsSpent};
ghost use Rattle.key_ring.specs.SignFaults.{of_sign_fault, IsStoreFault, IsRefusedFor};
ghost use Rattle.key_ring.specs.UsedTexts.{StandsFor, IsKept, IsBacked, RowsStay, LacksForm, kept_change, batches_for};

use crate::envelope::Envelope;
use crate::key_spec::KeySpec;
use crate::ring::{account_of, make_ring};
use crate::sign_fault::SignFault;
use crate::used_texts::{USED_TAB, key_bytes, read_texts};
use dh_base::{Id, List, NoMemory};
use keeper_core::{Batch, Keeper, StoreFault};
use ots_core::sign;
use std::alloc::Global;
use std::marker::Model;

/// The keys of a ring, of which each signs one text. What a key has signed is kept before its
/// signature leaves, so a signer that is loaded again never signs another text by that key.
///
/// A contract sees what the ring is made from, and the texts that are signed.
#[derive(Drop)]
pub struct Signer {
    alloc: Global,
    spec: KeySpec,
    /// The text of the ring.
    ring: List<u8>,
    /// The texts that keys 0, 1, 2 and so on have signed.
    texts: Vec<List<u8>>,
}

impl Model for Signer {
    ghost use Rattle.std.specs.Prelude.{◌≡◌, ◌≤◌, length};
    ghost use Rattle.key_ring.specs.Rings.{ring_text};
    ghost use Rattle.key_ring.specs.Making.{ring_made};
    ghost use Rattle.key_ring.specs.Signers.{SignerTold};

    ghost Value = { SignerTold };

    ghost view = { λ s. record { spec = s.spec; texts = s.texts.items } };

    ghost invariant = { λ s. (s.ring ≡ ring_text (ring_made s.spec.seed s.spec.ident s.spec.size))
        × (length s.texts.items ≤ s.spec.size) × (length s.spec.ident ≡ 16) };
}

impl Signer {
    /// The signer of the ring of a seed, with the texts that the keeper has of it.
    pub fn load<K: Keeper>(
        alloc: Global,
        spec: &KeySpec,
        keeper: &mut K,
    ) -> Result<Signer, StoreFault>
        ensures ring { IfOk result (λ signer. signer
            ≡ record { spec = spec.now; texts = signer.texts }) }
        ensures texts { IfOk result (λ signer. IfSome (K.known keeper.new).tables
            (λ tables. StandsFor tables signer.texts)) }
        ensures few { IfOk result (λ signer. length signer.texts ≤ spec.now.size) }
        ensures backed { IfOk result (λ signer. IsBacked (K.known keeper.new) signer.texts) }
        ensures cause { IfErr result (HasCause
            (LacksForm spec.now.size (K.known keeper.new).tables) (K.known keeper.new).tables) }
        ensures leaves { Leaves [] (ended of_store_fault result) (K.known keeper.old)
            (K.known keeper.new) }
        ensures fails { FailsNext (K.known keeper.old) → IsErrOf result StoreFault.Keeper }
        ensures looked { IfSome (K.known keeper.new).tables
            (λ tables. LooksAtMost (1 + length (rows_of 8 tables)) (K.known keeper.old)
            (K.known keeper.new)) }
    {
        let rows = keeper.scan(USED_TAB)?;
        let texts = read_texts(alloc, rows, spec.size)?;
        let ring = make_ring(alloc, spec)?;
        Ok(Signer {
            alloc,
            spec: *spec,
            ring,
            texts,
        })
    }

    /// How many keys the ring has.
    pub fn size(&self) -> u16
        ensures size { result ≡ self.now.spec.size }
        ensures few { result ≤ 64 }
    {
        self.spec.size
    }

    /// How many texts are signed. The next key has that number.
    pub fn used(&self) -> u16
        ensures used { result ≡ length self.now.texts }
        ensures few { result ≤ self.now.spec.size }
    {
        self.texts.len() as u16
    }

    /// The account of the ring.
    pub fn account(&self) -> Id
        ensures { result.0 ≡ signer_account self.now }
    {
        account_of(self.ring.as_slice())
    }

    /// The text that the key has signed.
    pub fn used_text(&self, q: u32) -> Option<&[u8]>
        ensures { option_copied result ≡ slice_get self.now.texts q }
    {
        let text = self.texts.get(q as usize)?;
        Some(text.as_slice())
    }

    /// The key that has signed the text.
    fn key_of(&self, text: &[u8]) -> Option<u32>
        ensures key { result ≡ key_of self.now text.now }
        ensures within { IfSome result (λ q. q < self.now.spec.size) }
    {
        for (q, signed) in self.texts.iter().enumerate() {
            if signed.as_slice() == text {
                return Some(q as u32);
            }
        }
        None
    }

    /// The envelope with this message, signed by a key of the ring. It takes no memory.
    fn seal(&self, q: u32, ring: Vec<u8>, message: Vec<u8>) -> Envelope
        requires ring { ring.items ≡ signer_ring self.now }
        requires key { q < self.now.spec.size }
        ensures made { result ≡ envelope_by self.now q message.items }
        ensures says { Says result (signer_account self.now) q message.items }
    {
        let sig = sign(&self.spec.seed, &self.spec.ident, q, &message);
        Envelope {
            ring: List::from_vec(ring),
            q,
            sig,
            message: List::from_vec(message),
        }
    }

    /// The text of the ring, in memory of its own.
    fn ring_copied(&self) -> Result<Vec<u8>, NoMemory>
        ensures { IfOk result (λ ring. ring.items ≡ signer_ring self.now) }
    {
        Ok(Vec::from_slice(self.alloc, self.ring.as_slice())?)
    }

    /// The envelope of a text that the key has signed.
    fn sign_again(&self, q: u32, text: &[u8]) -> Result<Envelope, SignFault>
        requires { q < self.now.spec.size }
        ensures made { MatchResult result (λ env. env ≡ envelope_by self.now q text.now)
            (λ fault. fault ≡ SignFault.Store StoreFault.NoMemory) }
        ensures says { IfOk result (λ env. Says env (signer_account self.now) q text.now) }
    {
        let ring = self.ring_copied()?;
        let message = Vec::from_slice(self.alloc, text)?;
        Ok(self.seal(q, ring, message))
    }

    /// What is committed for a text that no key has signed.
    fn batch_for(&self, text: &[u8]) -> Result<Batch, NoMemory>
        ensures { IfOk result (λ batch. batch ≡ kept_change self.now text.now ∷ []) }
    {
        let mut batch = Batch::new(self.alloc);
        batch.put(USED_TAB, &key_bytes(u32::from(self.used())), text)?;
        Ok(batch)
    }

    /// The envelope of a text that no key has signed, once the keeper has the text.
    fn sign_new<K: Keeper>(&mut self, keeper: &mut K, text: &[u8]) -> Result<Envelope, SignFault>
        requires { length self.old.texts < self.old.spec.size }
        ensures envelope { IfOk result (λ env. env ≡ envelope_by self.old
            (length self.old.texts) text.now) }
        ensures says { IfOk result (λ env. Says env (signer_account self.old)
            (length self.old.texts) text.now) }
        ensures kept { OnOk result (self.new ≡ with_text self.old text.now) }
        ensures unchanged { OnErr result (self.new ≡ self.old) }
        ensures leaves { Leaves ((kept_change self.old text.now ∷ []) ∷ [])
            (ended of_sign_fault result) (K.known keeper.old) (K.known keeper.new) }
        ensures cause { IfErr result IsStoreFault }
        ensures looked { (K.known keeper.new).looked ≡ (K.known keeper.old).looked }
    {
        let q = u32::from(self.used());
        let ring = self.ring_copied()?;
        let message = Vec::from_slice(self.alloc, text)?;
        let batch = self.batch_for(text)?;
        self.texts
            .push(List::from_vec(Vec::from_slice(self.alloc, text)?))?;
        if let Err(fault) = keeper.commit(&batch) {
            self.texts.pop();
            return Err(SignFault::from(fault));
        }
        Ok(self.seal(q, ring, message))
    }

    /// The envelope in which a key of the ring signs the text. A text that was signed before gets
    /// the same envelope again, and the keeper isn't asked. `reserve` keys are held back, for texts
    /// that are to come. Each signed text is kept before its envelope is given; after a fault of a
    /// keeper that stopped, the signer is loaded again.
    pub fn sign<K: Keeper>(
        &mut self,
        keeper: &mut K,
        text: &[u8],
        reserve: u16,
    ) -> Result<Envelope, SignFault>
        requires reserve { reserve ≤ self.old.spec.size }
        requires text { length text.now ≤ 16384 }
        requires backed { IsBacked (K.known keeper.old) self.old.texts }
        ensures envelope { IfOk result (λ env. env ≡ envelope_by self.old
            (key_for self.old text.now) text.now) }
        ensures says { IfOk result (λ env. Says env (signer_account self.old)
            (key_for self.old text.now) text.now) }
        ensures kept { OnOk result (IfSome (K.known keeper.new).tables
            (λ tables. IsKept tables (key_for self.old text.now) text.now)) }
        ensures signed { OnOk result (self.new ≡ after_signing self.old text.now) }
        ensures unchanged { OnErr result (self.new ≡ self.old) }
        ensures spent { (used size : ℕ) → (result ≡ Err (SignFault.KeysSpent used size))
            ↔ IsSpent self.old text.now reserve used size }
        ensures cause { IfErr result (IsRefusedFor self.old text.now reserve) }
        ensures leaves { Leaves (batches_for self.old text.now) (ended of_sign_fault result)
            (K.known keeper.old) (K.known keeper.new) }
        ensures no_call { (key_of self.old text.now ≡ None
            → self.old.spec.size ≤ length self.old.texts + reserve) → keeper.new ≡ keeper.old }
        ensures rows_stay { RowsStay (K.known keeper.old).tables (K.known keeper.new).tables }
        ensures backed { IsBacked (K.known keeper.new) self.new.texts }
        ensures looked { (K.known keeper.new).looked ≡ (K.known keeper.old).looked }
    {
        let used = self.used();
        let size = self.size();
        if let Some(q) = self.key_of(text) {
            return self.sign_again(q, text);
        }
        if size - reserve <= used {
            return Err(SignFault::KeysSpent { used, size });
        }
        self.sign_new(keeper, text)
    }
}
