//! Reading the fields of a byte text one behind the other: each call gives the field at a place,
//! and the place behind it.

ghost use Rattle.std.specs.Prelude.{◌≡◌, ◌<◌, ◌≤◌, ◌^◌, length, IfOk};
ghost use Rattle.std.specs.Int.{w8, w16, w32, w64};
ghost use Rattle.std.specs.Result.{result_map_both};
ghost use Rattle.dh_base.specs.Formats.{next_number, next_id, next_name, next_text};

use crate::base_fault::BaseFault;
use crate::id::Id;
use crate::name::Name;
use crate::take::{take_id, take_name, take_u8, take_u16, take_u32, take_u64};

/// The byte at a place.
pub fn next_u8(bytes: &[u8], at: u32) -> Result<(u8, u32), BaseFault>
    requires { length bytes.now < 2 ^ 32 }
    ensures field { result ≡ next_number w8 bytes.now at }
    ensures within { IfOk result (λ read. read.1 ≤ length bytes.now) }
{
    let number = take_u8(bytes, at)?;
    Ok((number, at + 1))
}

/// The number of two bytes at a place.
pub fn next_u16(bytes: &[u8], at: u32) -> Result<(u16, u32), BaseFault>
    requires { length bytes.now < 2 ^ 32 }
    ensures field { result ≡ next_number w16 bytes.now at }
    ensures within { IfOk result (λ read. read.1 ≤ length bytes.now) }
{
    let number = take_u16(bytes, at)?;
    Ok((number, at + 2))
}

/// The number of four bytes at a place.
pub fn next_u32(bytes: &[u8], at: u32) -> Result<(u32, u32), BaseFault>
    requires { length bytes.now < 2 ^ 32 }
    ensures field { result ≡ next_number w32 bytes.now at }
    ensures within { IfOk result (λ read. read.1 ≤ length bytes.now) }
{
    let number = take_u32(bytes, at)?;
    Ok((number, at + 4))
}

/// The number of eight bytes at a place.
pub fn next_u64(bytes: &[u8], at: u32) -> Result<(u64, u32), BaseFault>
    requires { length bytes.now < 2 ^ 32 }
    ensures field { result ≡ next_number w64 bytes.now at }
    ensures within { IfOk result (λ read. read.1 ≤ length bytes.now) }
{
    let number = take_u64(bytes, at)?;
    Ok((number, at + 8))
}

/// The id at a place.
pub fn next_id(bytes: &[u8], at: u32) -> Result<(Id, u32), BaseFault>
    requires { length bytes.now < 2 ^ 32 }
    ensures field { result ≡ next_id bytes.now at }
    ensures within { IfOk result (λ read. read.1 ≤ length bytes.now) }
{
    let id = take_id(bytes, at)?;
    Ok((id, at + 32))
}

/// The name at a place.
#[tactic(auto, unfolding(crate::specs::Fields::name_at))]
pub fn next_name(bytes: &[u8], at: u32) -> Result<(Name, u32), BaseFault>
    requires { length bytes.now < 2 ^ 32 }
    ensures field { result ≡ next_name bytes.now at }
    ensures within { IfOk result (λ read. read.1 ≤ length bytes.now) }
{
    let name = take_name(bytes, at)?;
    Ok((name, at + 1 + u32::from(name.len)))
}

/// The text behind its length at a place. A length that passes the end is told at the place where
/// the text begins.
pub fn next_text(bytes: &[u8], at: u32) -> Result<(&[u8], u32), BaseFault>
    requires { length bytes.now < 2 ^ 32 }
    ensures field { result_map_both (λ read. (read.0.now, read.1)) (λ fault. fault) result
        ≡ next_text bytes.now at }
    ensures within { IfOk result (λ read. read.1 ≤ length bytes.now) }
{
    let (len, start) = next_u32(bytes, at)?;
    let end = start as usize + len as usize;
    if bytes.len() < end {
        return Err(BaseFault::Short { at: start });
    }
    Ok((&bytes[start as usize..end], end as u32))
}
