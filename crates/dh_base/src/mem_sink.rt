//! A sink in memory.

ghost use Rattle.std.specs.Prelude.{◌≡◌, ◌<◌, ◌≤◌, [], IsErr, IfOk, OnOk, OnErr, IsTrue, length, take};
ghost use Rattle.dh_base.specs.Outside.{Gained, Rose};
ghost use Rattle.dh_base.specs.Memory.{sink_seen};
ghost use Rattle.dh_base.specs.Calls.{fails_next, after_call, after_failed_call};

use crate::calls::Calls;
use crate::failure::Failed;
use crate::list::List;
use crate::outside::Outside;
use crate::sink::Sink;
use std::alloc::Global;
use std::marker::Model;

/// A sink that keeps what is written. It tells it, and fails the calls that it is told to fail, and
/// those for which it gets no memory.
#[derive(Debug, Drop)]
pub struct MemSink {
    bytes: Vec<u8>,
    calls: Calls,
}

impl Model for MemSink {
    ghost use Rattle.dh_base.specs.Memory.{SinkTold};

    ghost Value = { SinkTold };

    ghost view = { λ s. record { written = s.bytes.items; calls = s.calls } };
}

impl MemSink {
    /// A sink with nothing written, of which the calls with the numbers `fails`, from 0, are to
    /// fail.
    pub fn new(alloc: Global, fails: List<u32>) -> MemSink
        ensures { result ≡ record {
          written = [];
          calls = record { fails = fails; made = 0; faults = 0 };
        } }
    {
        MemSink {
            bytes: Vec::new(alloc),
            calls: Calls::new(fails),
        }
    }

    /// What is written.
    pub fn written(&self) -> &[u8]
        ensures { result.now ≡ self.now.written }
    {
        self.bytes.as_slice()
    }

    /// How many calls have failed.
    pub fn faults(&self) -> u64
        ensures { result ≡ self.now.calls.faults }
    {
        self.calls.faults()
    }
}

impl Outside for MemSink {
    ghost use Rattle.dh_base.specs.Memory.{sink_seen};

    ghost seen = { sink_seen };
}

impl Sink for MemSink {
    fn write(&mut self, piece: &[u8]) -> Result<usize, Failed>
        ensures within { IfOk result (λ n. n ≤ length piece.now) }
        ensures some { IfOk result (λ n. 0 < length piece.now → 0 < n) }
        ensures gained { IfOk result (λ n.
            Gained (sink_seen self.old) (take n piece.now) (sink_seen self.new)) }
        ensures failed { OnErr result (Rose (sink_seen self.old) (sink_seen self.new)) }
        ensures told { IsTrue (fails_next self.old.calls) → IsErr result }
        ensures calls { OnOk result (self.new.calls ≡ after_call self.old.calls) }
        ensures failed_call { OnErr result (self.new.calls ≡ after_failed_call self.old.calls) }
        ensures whole { IfOk result (λ n. n ≡ length piece.now) }
    {
        self.calls.make()?;
        match self.bytes.extend_from_slice(piece) {
            Ok(()) => Ok(piece.len()),
            Err(_) => Err(self.calls.refuse()),
        }
    }
}
