//! Identifiers of 32 bytes.

use std::fmt;

/// 32 bytes that stand for a deal, an account or a text: mostly a SHA-256 digest.
#[derive(Clone, Copy, Debug, PartialEq, Eq, PartialOrd, Ord, Hash)]
pub struct Id(pub [u8; 32]);

/// A byte, written as two lower-case hexadecimal digits.
#[derive(Clone, Copy)]
struct HexByte(u8);

impl fmt::Display for HexByte {
    ghost use Rattle.std.specs.Prelude.{Some};
    ghost use Rattle.dh_base.specs.Spelled.{hex_byte};

    ghost output = { λ byte. Some (hex_byte byte.0) };

    fn fmt<W: fmt::Write>(&self, f: &mut fmt::Formatter<W>) -> fmt::Result {
        let byte = self.0;
        write!(f, "{byte:02x}")
    }
}

impl fmt::Display for Id {
    ghost use Rattle.std.specs.Prelude.{Some};
    ghost use Rattle.dh_base.specs.Spelled.{hex_text};

    ghost output = { λ id. Some (hex_text id.0) };

    #[tactic(auto, using(crate::proofs::Writing::hex_more))]
    fn fmt<W: fmt::Write>(&self, f: &mut fmt::Formatter<W>) -> fmt::Result {
        for byte in self.0.iter() {
            let digits = HexByte(*byte);
            write!(f, "{digits}")?;
        }
        Ok(())
    }
}
