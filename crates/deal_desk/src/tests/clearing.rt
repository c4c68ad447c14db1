//! What `clear` writes for the texts of deals, and for texts that are refused.

use super::{BROKER_CLEARING, BROKER_DEAL, check, check_refused};
use std::test::Fail;

/// Lines 1 to 5.
const THREE: &str = "deal ring\n\
house 0000000000000000000000000000000000000000000000000000000000000000\n\
party a 1111111111111111111111111111111111111111111111111111111111111111\n\
party b 2222222222222222222222222222222222222222222222222222222222222222\n\
party c 3333333333333333333333333333333333333333333333333333333333333333\n";

const RING_STEPS: &str = "step a b bank gold 5\nstep b c bank gold 5\nstep c a bank gold 5\n";

const RING_CLEARING: &str = "deal ring\n\
id 38ebe3cd98aa6865631b537683e832f0619d95a839f54ba766832cc001c2ad46\n\
matrix a b bank gold 5\nmatrix b c bank gold 5\nmatrix c a bank gold 5\n\
need a bank gold 5\ndue a bank gold 5\n";

#[test]
fn clear_ring(rt: HostRuntime) -> Result<(), Fail> {
    let alloc = rt.alloc();
    let deal = format!(in alloc; "{THREE}{RING_STEPS}")?;
    check(&rt, alloc, "clear", deal.as_bytes(), 0, RING_CLEARING)
}

#[test]
fn clear_broker(rt: HostRuntime) -> Result<(), Fail> {
    let deal = BROKER_DEAL.as_bytes();
    check(&rt, rt.alloc(), "clear", deal, 0, BROKER_CLEARING)
}

const NOT_CONNECTED: &str =
    "step a b bank gold 1|step b a bank gold 1|step a c bank gold 1| => refused 8 NotConnected 2";

#[test]
fn clear_not_connected(rt: HostRuntime) -> Result<(), Fail> {
    check_refused(&rt, rt.alloc(), "clear", THREE, NOT_CONNECTED)
}

const FAULTS: &str = "step a b bank gold 01| => refused 1 BadLine 6
party a 4444444444444444444444444444444444444444444444444444444444444444| => refused 2 PartyTwice 6
step a d bank gold 1| => refused 3 UnknownParty 6
step a a bank gold 1| => refused 4 SelfStep 6
step a b bank gold 0| => refused 5 ZeroAmount 6
step a b k x 1|step a b l x 1|step a b m x 1|step a b n x 1|step a b o x 1|step a b p x 1|step a b q x 1|step a b r x 1|step a b s x 1| => refused 6 TooMany 14
step a b bank gold 9223372036854775807|step b c bank gold 1| => refused 7 SumTooLarge 7
step b c bank gold 1|step c b bank gold 1| => refused 8 NotConnected 1
 => refused 1 BadLine 6";

#[test]
fn each_fault_of_a_deal_is_told(rt: HostRuntime) -> Result<(), Fail> {
    check_refused(&rt, rt.alloc(), "clear", THREE, FAULTS)
}

#[test]
fn an_empty_input_is_no_deal(rt: HostRuntime) -> Result<(), Fail> {
    check(&rt, rt.alloc(), "clear", b"", 2, "refused 1 BadLine 1\n")
}

#[test]
fn a_script_is_no_deal(rt: HostRuntime) -> Result<(), Fail> {
    let script = b"plain\nbegin\n";
    check(&rt, rt.alloc(), "clear", script, 2, "refused 1 BadLine 1\n")
}

#[test]
fn a_deal_text_has_2097152_bytes(rt: HostRuntime) -> Result<(), Fail> {
    let alloc = rt.alloc();
    let empty_lines = vec![in alloc; b'\n'; 2097152 - BROKER_DEAL.len()]?;
    let mut text = BROKER_DEAL.as_bytes().to_vec(alloc)?;
    text.extend_from_slice(empty_lines.as_slice())?;
    let bad_line = "refused 1 BadLine 10\n";
    check(&rt, alloc, "clear", text.as_slice(), 2, bad_line)?;
    text.push(b'\n')?;
    let too_large = "line 0 rule 11 TooLarge\n";
    check(&rt, alloc, "clear", text.as_slice(), 2, too_large)
}
