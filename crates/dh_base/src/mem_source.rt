//! A source in memory.

ghost use Rattle.std.specs.Prelude.{◌≡◌, ◌↔◌, ◌<◌, ◌≤◌, IsErr, IfOk, OnErr, IsTrue, length, min, take};
ghost use Rattle.std.specs.Io.KnownBytes.{IsAtEnd};
ghost use Rattle.dh_base.specs.Outside.{Took, Rose};
ghost use Rattle.dh_base.specs.Memory.{source_seen};
ghost use Rattle.dh_base.specs.Calls.{fails_next, after_call};

use crate::calls::Calls;
use crate::failure::Failed;
use crate::list::List;
use crate::outside::Outside;
use crate::source::Source;
use std::marker::Model;

/// A source over bytes in memory. It tells them, and fails the calls that it is told to fail.
#[derive(Debug, Drop)]
pub struct MemSource {
    bytes: List<u8>,
    at: usize,
    calls: Calls,
}

impl Model for MemSource {
    ghost use Rattle.std.specs.Prelude.{drop, length, ◌≤◌};
    ghost use Rattle.dh_base.specs.Memory.{SourceTold};

    ghost Value = { SourceTold };

    ghost view = { λ s. record { left = drop s.at s.bytes; calls = s.calls } };

    ghost invariant = { λ s. s.at ≤ length s.bytes };
}

impl MemSource {
    /// A source of these bytes, of which the calls with the numbers `fails`, from 0, are to fail.
    pub fn new(bytes: List<u8>, fails: List<u32>) -> MemSource
        ensures { result ≡ record {
          left = bytes;
          calls = record { fails = fails; made = 0; faults = 0 };
        } }
    {
        MemSource {
            bytes,
            at: 0,
            calls: Calls::new(fails),
        }
    }

    /// How many bytes are left.
    pub fn left(&self) -> usize
        ensures { result ≡ length self.now.left }
    {
        self.bytes.len() - self.at
    }

    /// How many calls have failed.
    pub fn faults(&self) -> u64
        ensures { result ≡ self.now.calls.faults }
    {
        self.calls.faults()
    }
}

impl Outside for MemSource {
    ghost use Rattle.dh_base.specs.Memory.{source_seen};

    ghost seen = { source_seen };
}

impl Source for MemSource {
    fn read(&mut self, buffer: &mut [u8]) -> Result<usize, Failed>
        ensures within { IfOk result (λ n. n ≤ length buffer.old) }
        ensures took { IfOk result (λ n.
            Took (source_seen self.old) (take n buffer.new) (source_seen self.new)) }
        ensures end { IfOk result (λ n.
            n ≡ 0 → 0 < length buffer.old → IsAtEnd (source_seen self.new).left) }
        ensures failed { OnErr result (Rose (source_seen self.old) (source_seen self.new)) }
        ensures told { IsErr result ↔ IsTrue (fails_next self.old.calls) }
        ensures calls { self.new.calls ≡ after_call self.old.calls }
        ensures whole { IfOk result (λ n. n ≡ min (length self.old.left) (length buffer.old)) }
    {
        self.calls.make()?;
        let rest = &self.bytes.as_slice()[self.at..];
        let n = rest.len().min(buffer.len());
        buffer[..n].copy_from_slice(&rest[..n]);
        self.at += n;
        Ok(n)
    }
}
