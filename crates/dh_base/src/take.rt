//! Reading the fields of a byte text, each at a place. Numbers have their high byte first.

ghost use Rattle.std.specs.Prelude.{◌≡◌, ◌≤◌};
ghost use Rattle.std.specs.Int.{w8, w16, w32, w64};
ghost use Rattle.dh_base.specs.Fields.{bytes_at, number_at, id_at, name_at};

use crate::base_fault::BaseFault;
use crate::id::Id;
use crate::name::Name;

/// The most characters of a name.
const MOST_CHARACTERS: u8 = 16;

/// The bytes at a place.
fn take_bytes<const N: usize>(bytes: &[u8], at: u32) -> Result<[u8; N], BaseFault>
    requires { N ≤ 32 }
    ensures { result ≡ bytes_at N bytes.now at }
{
    let start = at as usize;
    if bytes.len() < start + N {
        return Err(BaseFault::Short { at });
    }
    let mut field = [0; N];
    field.copy_from_slice(&bytes[start..start + N]);
    Ok(field)
}

/// The byte at a place.
pub fn take_u8(bytes: &[u8], at: u32) -> Result<u8, BaseFault>
    ensures { result ≡ number_at w8 bytes.now at }
{
    Ok(u8::from_be_bytes(take_bytes(bytes, at)?))
}

/// The number of two bytes at a place.
pub fn take_u16(bytes: &[u8], at: u32) -> Result<u16, BaseFault>
    ensures { result ≡ number_at w16 bytes.now at }
{
    Ok(u16::from_be_bytes(take_bytes(bytes, at)?))
}

/// The number of four bytes at a place.
pub fn take_u32(bytes: &[u8], at: u32) -> Result<u32, BaseFault>
    ensures { result ≡ number_at w32 bytes.now at }
{
    Ok(u32::from_be_bytes(take_bytes(bytes, at)?))
}

/// The number of eight bytes at a place.
pub fn take_u64(bytes: &[u8], at: u32) -> Result<u64, BaseFault>
    ensures { result ≡ number_at w64 bytes.now at }
{
    Ok(u64::from_be_bytes(take_bytes(bytes, at)?))
}

/// The id at a place.
pub fn take_id(bytes: &[u8], at: u32) -> Result<Id, BaseFault>
    ensures { result ≡ id_at bytes.now at }
{
    Ok(Id(take_bytes(bytes, at)?))
}

/// The name at a place: a byte that says how many characters it has, and the characters.
#[tactic(auto, unfolding(crate::specs::Fields::name_at))]
pub fn take_name(bytes: &[u8], at: u32) -> Result<Name, BaseFault>
    ensures { result ≡ name_at bytes.now at }
{
    let len = take_u8(bytes, at)?;
    if len == 0 || MOST_CHARACTERS < len {
        return Err(BaseFault::BadName { at });
    }
    let start = at as usize + 1;
    let end = start + len as usize;
    if bytes.len() < end {
        return Err(BaseFault::Short { at });
    }
    match Name::from_bytes(&bytes[start..end]) {
        Ok(name) => Ok(name),
        Err(_) => Err(BaseFault::BadName { at }),
    }
}
