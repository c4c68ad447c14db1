//! The holders that a house declares.

ghost use Rattle.std.specs.Prelude.{◌≡◌, ◌<◌, ◌≤◌, ◌++◌, length, IfOk, IfSome, OnOk};
ghost use Rattle.std.specs.List.{find};
ghost use Rattle.std.specs.Option.{option_copied};
ghost use Rattle.std.specs.Str.{bytes_eq};
ghost use Rattle.holder_names.specs.Holders.{signed_of};
ghost use Rattle.house_holders.specs.Holders.{ring_size, holder_sized, holder_by, holders_of, account_named, directory_of};

use dh_base::{Id, Name, NoMemory};
use holder_names::{Directory, Holder};
use house_grammar::{Conduct, Declaration, KeySize};
use key_ring::Envelope;
use std::alloc::Global;
use std::marker::Model;

/// A party or a seat: its keys, its account, and whether it keeps to its program.
#[derive(Drop)]
pub struct DeclaredHolder {
    holder: Holder,
    conduct: Conduct,
    account: Id,
}

impl Model for DeclaredHolder {
    ghost use Rattle.house_holders.specs.Holders.{HolderTold};

    ghost Value = { HolderTold };

    ghost view = { λ h. record {
      name = h.holder.name;
      conduct = h.conduct;
      size = h.holder.size;
      account = h.account;
    } };
}

/// The number of keys of a ring. Trees have none, and no ring has none or more than 64.
fn ring_size(size: &KeySize) -> Option<u16>
    ensures size { result ≡ ring_size size.now }
    ensures within { IfSome result (λ n. (1 ≤ n) × (n ≤ 64)) }
{
    match size {
        KeySize::Ring(Some(n)) => {
            if *n >= 1 && *n <= 64 {
                Some(*n as u16)
            } else {
                None
            }
        }
        _ => None,
    }
}

/// The holder of the name, where its keys are a ring.
fn holder_sized(
    alloc: Global,
    name: &Name,
    conduct: Conduct,
    size: &KeySize,
) -> Result<Option<DeclaredHolder>, NoMemory>
    ensures { IfOk result (λ holder. holder
        ≡ holder_sized name.now conduct (ring_size size.now)) }
{
    match ring_size(size) {
        None => Ok(None),
        Some(size) => {
            let holder = Holder { name: *name, size };
            let account = holder.account(alloc)?;
            Ok(Some(DeclaredHolder {
                holder,
                conduct,
                account,
            }))
        }
    }
}

/// The holder that the line declares.
fn holder_by(alloc: Global, declaration: &Declaration) -> Result<Option<DeclaredHolder>, NoMemory>
    ensures { IfOk result (λ holder. holder ≡ holder_by declaration.now) }
{
    match declaration {
        Declaration::Party {
            name,
            conduct,
            size,
        } => holder_sized(alloc, name, *conduct, size),
        Declaration::Seat {
            name,
            conduct,
            size,
        } => holder_sized(alloc, name, *conduct, size),
        _ => Ok(None),
    }
}

impl DeclaredHolder {
    pub fn name(&self) -> &Name
        ensures { result.now ≡ self.now.name }
    {
        &self.holder.name
    }

    pub fn account(&self) -> &Id
        ensures { result.now ≡ self.now.account }
    {
        &self.account
    }

    pub fn conduct(&self) -> Conduct
        ensures { result ≡ self.now.conduct }
    {
        self.conduct
    }

    /// How many keys the holder has.
    pub fn size(&self) -> u16
        ensures size { result ≡ self.now.size }
        ensures few { result ≤ 64 }
    {
        self.holder.size
    }

    /// The envelope in which the key of number `q` signs the message. Nothing keeps it.
    pub fn sign(&self, alloc: Global, q: u32, message: &[u8]) -> Result<Envelope, NoMemory>
        requires key { q < self.now.size }
        requires message { length message.now ≤ 16384 }
        ensures { IfOk result (λ env. env
            ≡ signed_of self.now.name self.now.size q message.now) }
    {
        self.holder.sign(alloc, q, message)
    }
}

/// All holders of a house. A contract sees their list, in the order of their declarations.
#[derive(Drop)]
pub struct Holders {
    listed: Vec<DeclaredHolder>,
}

impl Model for Holders {
    ghost use Rattle.std.specs.Prelude.{List};
    ghost use Rattle.house_holders.specs.Holders.{HolderTold};

    ghost Value = { List HolderTold };

    ghost view = { λ h. h.listed.items };
}

impl Holders {
    /// The holders that the lines declare.
    pub fn of(alloc: Global, declarations: &[Declaration]) -> Result<Holders, NoMemory>
        ensures { IfOk result (λ holders. holders ≡ holders_of declarations.now) }
    {
        let mut listed = Vec::new(alloc);
        for declaration in declarations {
            if let Some(holder) = holder_by(alloc, declaration)? {
                listed.push(holder)?;
            }
        }
        Ok(Holders { listed })
    }

    pub fn as_slice(&self) -> &[DeclaredHolder]
        ensures { result.now ≡ self.now }
    {
        self.listed.as_slice()
    }

    /// The first holder of the name.
    pub fn find(&self, name: &Name) -> Option<&DeclaredHolder>
        ensures { option_copied result ≡ find (λ holder. bytes_eq name.now holder.name) self.now }
    {
        self.listed.iter().find(|holder| name == holder.name())
    }

    /// The account of the name, and zeros where nobody has the name.
    pub fn account_of(&self, name: &Name) -> Id
        ensures { result ≡ account_named self.now name.now }
    {
        match self.find(name) {
            Some(holder) => *holder.account(),
            None => Id([0; 32]),
        }
    }

    /// Adds the accounts and the names of all holders.
    pub fn name_in(&self, directory: &mut Directory) -> Result<(), NoMemory>
        ensures { OnOk result (directory.new ≡ directory.old ++ directory_of self.now) }
    {
        for holder in self.listed.iter() {
            directory.add(holder.account(), holder.name())?;
        }
        Ok(())
    }
}
