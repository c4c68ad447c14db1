//! Appending the fields of a byte text. Numbers have their high byte first. Where memory runs out,
//! the text is as it was.

ghost use Rattle.std.specs.Prelude.{◌≡◌, ◌<◌, ◌^◌, ◌++◌, length, OnOk, OnErr};
ghost use Rattle.std.specs.Int.{w8, w16, w32, w64, to_be_bytes};
ghost use Rattle.dh_base.specs.Fields.{name_field};
ghost use Rattle.dh_base.specs.Formats.{text_field};

use crate::failure::NoMemory;
use crate::id::Id;
use crate::name::Name;

/// Appends a byte.
pub fn put_u8(out: &mut Vec<u8>, field: u8) -> Result<(), NoMemory>
    ensures ok { OnOk result (out.new.items ≡ out.old.items ++ to_be_bytes w8 field) }
    ensures unchanged { OnErr result (out.new.items ≡ out.old.items) }
{
    out.extend_from_slice(&field.to_be_bytes())?;
    Ok(())
}

/// Appends a number of two bytes.
pub fn put_u16(out: &mut Vec<u8>, field: u16) -> Result<(), NoMemory>
    ensures ok { OnOk result (out.new.items ≡ out.old.items ++ to_be_bytes w16 field) }
    ensures unchanged { OnErr result (out.new.items ≡ out.old.items) }
{
    out.extend_from_slice(&field.to_be_bytes())?;
    Ok(())
}

/// Appends a number of four bytes.
pub fn put_u32(out: &mut Vec<u8>, field: u32) -> Result<(), NoMemory>
    ensures ok { OnOk result (out.new.items ≡ out.old.items ++ to_be_bytes w32 field) }
    ensures unchanged { OnErr result (out.new.items ≡ out.old.items) }
{
    out.extend_from_slice(&field.to_be_bytes())?;
    Ok(())
}

/// Appends a number of eight bytes.
pub fn put_u64(out: &mut Vec<u8>, field: u64) -> Result<(), NoMemory>
    ensures ok { OnOk result (out.new.items ≡ out.old.items ++ to_be_bytes w64 field) }
    ensures unchanged { OnErr result (out.new.items ≡ out.old.items) }
{
    out.extend_from_slice(&field.to_be_bytes())?;
    Ok(())
}

/// Appends an id.
pub fn put_id(out: &mut Vec<u8>, field: &Id) -> Result<(), NoMemory>
    ensures ok { OnOk result (out.new.items ≡ out.old.items ++ field.now.0) }
    ensures unchanged { OnErr result (out.new.items ≡ out.old.items) }
{
    out.extend_from_slice(&field.0)?;
    Ok(())
}

/// Appends a name: a byte that says how many characters it has, and the characters.
pub fn put_name(out: &mut Vec<u8>, field: &Name) -> Result<(), NoMemory>
    ensures ok { OnOk result (out.new.items ≡ out.old.items ++ name_field field.now) }
    ensures unchanged { OnErr result (out.new.items ≡ out.old.items) }
{
    let characters = field.as_bytes();
    let mut text = [0; 17];
    text[0] = characters.len() as u8;
    text[1..=characters.len()].copy_from_slice(characters);
    out.extend_from_slice(&text[..=characters.len()])?;
    Ok(())
}

/// Appends a text behind its length, a number of four bytes.
pub fn put_text(out: &mut Vec<u8>, text: &[u8]) -> Result<(), NoMemory>
    requires { length text.now < 2 ^ 32 }
    ensures ok { OnOk result (out.new.items ≡ out.old.items ++ text_field text.now) }
    ensures unchanged { OnErr result (out.new.items ≡ out.old.items) }
{
    let before = out.len();
    put_u32(out, text.len() as u32)?;
    if out.extend_from_slice(text).is_err() {
        out.truncate(before);
        return Err(NoMemory);
    }
    Ok(())
}
