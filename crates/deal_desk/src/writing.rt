//! Writing a text to a sink.

ghost use Rattle.std.specs.Prelude.{◌<◌, ◌≤◌, ◌-◌, length, drop, take, IfOk, OnOk, OnErr};
ghost use Rattle.dh_base.specs.Faults.{HasRisen};
ghost use Rattle.dh_base.specs.Outside.{Gained, Rose};
ghost use Rattle.deal_desk.specs.Endings.{Wrote, WroteFront};

use dh_base::{Failed, Sink};

/// Writes bytes of the text from that place on, and answers how many.
fn write_from<K: Sink>(text: &[u8], at: usize, output: &mut K) -> Result<usize, Failed>
    requires { at < length text.now }
    ensures within { IfOk result (λ n. (0 < n) × (n ≤ length text.now - at)) }
    ensures gained { IfOk result (λ n.
        Gained (K.seen output.old) (take n (drop at text.now)) (K.seen output.new)) }
    ensures failed { OnErr result (Rose (K.seen output.old) (K.seen output.new)) }
{
    output.write(&text[at..])
}

/// Writes the whole text, piece by piece.
pub fn write_text<K: Sink>(text: &[u8], output: &mut K) -> Result<(), Failed>
    ensures wrote { OnOk result (Wrote (K.seen output.old) text.now (K.seen output.new)) }
    ensures failed { OnErr result (
        HasRisen (K.seen output.old).faults (K.seen output.new).faults) }
    ensures front { OnErr result (WroteFront (K.seen output.old) text.now (K.seen output.new)) }
{
    let mut at = 0;
    while at < text.len() {
        at += write_from(text, at, output)?;
    }
    Ok(())
}
