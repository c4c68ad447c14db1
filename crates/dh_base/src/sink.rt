//! Where bytes go.

ghost use Rattle.std.specs.Prelude.{◌<◌, ◌≤◌, length, take, IfOk, OnErr};
ghost use Rattle.dh_base.specs.Outside.{Gained, Rose};

use crate::failure::Failed;
use crate::outside::Outside;

/// A sink of bytes.
pub trait Sink: Outside {
    /// Writes bytes of the piece, from its front, and answers how many: at least one of a piece
    /// that isn't empty.
    fn write(&mut self, piece: &[u8]) -> Result<usize, Failed>
        ensures within { IfOk result (λ n. n ≤ length piece.now) }
        ensures some { IfOk result (λ n. 0 < length piece.now → 0 < n) }
        ensures gained { IfOk result (λ n.
            Gained (Self.seen self.old) (take n piece.now) (Self.seen self.new)) }
        ensures failed { OnErr result (Rose (Self.seen self.old) (Self.seen self.new)) };
}
