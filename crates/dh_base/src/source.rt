//! Where bytes come from.

ghost use Rattle.std.specs.Prelude.{◌≡◌, ◌<◌, ◌≤◌, length, take, IfOk, OnErr};
ghost use Rattle.std.specs.Io.KnownBytes.{IsAtEnd};
ghost use Rattle.dh_base.specs.Outside.{Took, Rose};

use crate::failure::Failed;
use crate::outside::Outside;

/// A source of bytes.
pub trait Source: Outside {
    /// Puts the next bytes at the front of the buffer, and answers how many there are.
    /// 0 for a buffer that isn't empty is the end.
    fn read(&mut self, buffer: &mut [u8]) -> Result<usize, Failed>
        ensures within { IfOk result (λ n. n ≤ length buffer.old) }
        ensures took { IfOk result (λ n.
            Took (Self.seen self.old) (take n buffer.new) (Self.seen self.new)) }
        ensures end { IfOk result (λ n.
            n ≡ 0 → 0 < length buffer.old → IsAtEnd (Self.seen self.new).left) }
        ensures failed { OnErr result (Rose (Self.seen self.old) (Self.seen self.new)) };
}
