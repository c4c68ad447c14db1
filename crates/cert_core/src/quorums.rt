//! Quorums of a set.

ghost use Rattle.std.specs.Prelude.{◌≡◌, ◌≤◌, [], length, Ok, IfOk, IfNone};
ghost use Rattle.std.specs.List.{AllByRecursion};
ghost use Rattle.key_ring.specs.Answering.{said_of};
ghost use Rattle.cert_core.specs.Quorums.{SaysAs, Vouches, IsQuorum, has_seat, said_fault, sig_fault, first_fault, quorum_of};

use crate::quorum_fault::QuorumFault;
use crate::seat_sig::SeatSig;
use crate::set::Set;
use dh_base::Id;
use key_ring::check;

/// Whether one of the signatures is of the seat.
fn has_seat(sigs: &[SeatSig], seat: u16) -> bool
    ensures { result ≡ has_seat sigs.now seat }
{
    sigs.iter().any(|sig| sig.seat == seat)
}

/// What is wrong with what a seat's envelope says, where the seat has that account.
fn said_fault(account: &Id, text: &[u8], sig: &SeatSig) -> Option<QuorumFault>
    ensures exact { result ≡ said_fault account.now text.now sig.now (said_of sig.now.env) }
    ensures vouches { IfNone result (SaysAs account.now text.now sig.now.env) }
{
    let seat = sig.seat;
    let said = match check(&sig.env) {
        Ok(said) => said,
        Err(fault) => return Some(QuorumFault::BadEnvelope { seat, fault }),
    };
    if said.account != *account {
        return Some(QuorumFault::NotItsRing { seat });
    }
    if sig.env.message.as_slice() != text {
        return Some(QuorumFault::OtherText { seat });
    }
    None
}

/// What is wrong with a signature behind earlier ones.
fn sig_fault(accounts: &[Id], text: &[u8], before: &[SeatSig], sig: &SeatSig) -> Option<QuorumFault>
    ensures exact { result ≡ sig_fault accounts.now text.now before.now sig.now }
    ensures vouches { IfNone result (Vouches accounts.now text.now sig.now) }
{
    let seat = sig.seat as usize;
    if accounts.len() <= seat {
        return Some(QuorumFault::SeatOutside { seat: sig.seat });
    }
    if has_seat(before, sig.seat) {
        return Some(QuorumFault::SeatTwice { seat: sig.seat });
    }
    said_fault(&accounts[seat], text, sig)
}

/// What is wrong with the first signature at fault.
fn first_fault(accounts: &[Id], text: &[u8], sigs: &[SeatSig]) -> Option<QuorumFault>
    requires { length accounts.now ≤ 16 }
    ensures exact { result ≡ first_fault accounts.now text.now [] sigs.now }
    ensures vouched { IfNone result (AllByRecursion (Vouches accounts.now text.now) sigs.now) }
    ensures few { IfNone result (length sigs.now ≤ 16) }
{
    for (place, sig) in sigs.iter().enumerate() {
        let fault = sig_fault(accounts, text, &sigs[..place], sig);
        if fault.is_some() {
            return fault;
        }
    }
    None
}

/// How many seats of the set say the text, if that is a quorum of them, and each signature counts.
/// Ledgers ask it of the heads that claims name, and of the links of a handover.
#[tactic(auto, using(crate::proofs::SeatSigs::no_fault, crate::proofs::SeatSigs::quorum_there))]
pub fn quorum(set: &Set, text: &[u8], sigs: &[SeatSig]) -> Result<u16, QuorumFault>
    // What is counted is a quorum.
    ensures found { IfOk result (λ counted. IsQuorum set.now text.now sigs.now
        × (counted ≡ length sigs.now)) }
    // A quorum is counted.
    ensures only { IsQuorum set.now text.now sigs.now → result ≡ Ok (length sigs.now) }
    // Which part is the first that is broken.
    ensures exact { result ≡ quorum_of set.now text.now sigs.now }
{
    if let Some(fault) = first_fault(set.accounts(), text, sigs) {
        return Err(fault);
    }
    let counted = sigs.len() as u16;
    let needed = set.quorum_size();
    if counted < needed {
        return Err(QuorumFault::TooFew { counted, needed });
    }
    Ok(counted)
}
