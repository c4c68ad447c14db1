//! Reading an input from a source.

ghost use Rattle.std.specs.Prelude.{◌≡◌, IfOk, IfErr, OnErr};
ghost use Rattle.deal_desk.specs.declared.reading.ReadHalt.TheVariants.{Failed as HasFailed};
ghost use Rattle.dh_base.specs.Faults.{HasRisen};
ghost use Rattle.deal_desk.specs.Inputs.{WasRead, GaveFront};

use dh_base::Source;
use script_lines::MOST_BYTES;
use std::alloc::Global;

/// One byte more than an input may have.
const MOST_READ: usize = MOST_BYTES + 1;

/// How many bytes are read at once.
const PIECE: usize = 4096;

/// Why a source is not read.
pub enum ReadHalt {
    Failed,
    NoMemory,
}

/// Reads the source to its end, or to one byte more than an input may have.
pub fn read_input<S: Source>(alloc: Global, input: &mut S) -> Result<Vec<u8>, ReadHalt>
    ensures read { IfOk result (λ bytes.
        WasRead (S.seen input.old).left bytes.items (S.seen input.new).left) }
    ensures front { OnErr result (GaveFront (S.seen input.old).left (S.seen input.new).left) }
    ensures failed { IfErr result (λ halt. halt ≡ HasFailed →
        HasRisen (S.seen input.old).faults (S.seen input.new).faults) }
{
    let mut bytes = Vec::new(alloc);
    let mut piece = [0; PIECE];
    loop {
        let room = PIECE.min(MOST_READ - bytes.len());
        if room == 0 {
            return Ok(bytes);
        }
        let Ok(n) = input.read(&mut piece[..room]) else {
            return Err(ReadHalt::Failed);
        };
        if n == 0 {
            return Ok(bytes);
        }
        if bytes.extend_from_slice(&piece[..n]).is_err() {
            return Err(ReadHalt::NoMemory);
        }
    }
}
