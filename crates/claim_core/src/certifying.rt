//! What a claim certifies.

ghost use Rattle.std.specs.Prelude.{◌≡◌, ◌<◌, ◌≤◌, ◌+◌, ◌^◌, [], List, length, Ok, IfOk};
ghost use Rattle.std.specs.List.{AllByRecursion};
ghost use Rattle.cert_core.specs.Sets.{SetTold, id_of_set};
ghost use Rattle.cert_core.specs.Quorums.{IsQuorum};
ghost use Rattle.claim_core.specs.Chains.{HandsOver, IsOnPath, ChainLeadsTo};
ghost use Rattle.claim_core.specs.Certificates.{Certifies, vouched_for, certified_by};
ghost use Rattle.claim_core.specs.FirstBroken.{is_on_path, named_set, next_set, last_set, certified_for, certified_of};
ghost use Rattle.claim_core.specs.Limits.{IsSmall, most_links};
ghost use Rattle.claim_core.specs.Walks.{HasWalked};
ghost use Rattle.claim_core.specs.declared.link.Link.{Link};

use crate::certificate::Certified;
use crate::claim::Claim;
use crate::claim_fault::ClaimFault;
use crate::link::Link;
use crate::link_fault::LinkFault;
use crate::walk::Walk;
use cert_core::{Set, handover_text, prefix_text, quorum, read_set, set_id};
use dh_base::Id;
use vote_log::LogRecord;

/// The set of the link's text, where its epoch is the next.
#[tactic(auto, unfolding(crate::specs::FirstBroken::named_set))]
fn named_set(set: &Set, link: &Link) -> Result<Set, LinkFault>
    requires text { length link.now.set_text < 2 ^ 32 }
    requires epoch { set.now.epoch + 1 < 2 ^ 32 }
    ensures { result ≡ named_set set.now link.now }
{
    let next = match read_set(link.set_text.as_slice()) {
        Ok(next) => next,
        Err(fault) => return Err(LinkFault::BadSet { fault }),
    };
    let expected = set.epoch + 1;
    let got = next.epoch;
    if got != expected {
        return Err(LinkFault::WrongEpoch { expected, got });
    }
    Ok(next)
}

/// Whether the link's head is that of so many first records.
fn is_on_path(house: &Id, recs: &[LogRecord], walk: &mut Walk, link: &Link) -> bool
    requires { HasWalked house.now recs.now walk.old }
    ensures value { result ≡ is_on_path house.now recs.now link.now }
    ensures walked { HasWalked house.now recs.now walk.new }
{
    let len = link.len as usize;
    if recs.len() < len {
        return false;
    }
    walk.go_to(house, recs, len);
    walk.head == link.head
}

/// The set to which a link leads, or what is the first of it that is broken.
#[tactic(auto, unfolding(crate::specs::FirstBroken::next_set))]
fn next_set(
    house: &Id,
    recs: &[LogRecord],
    walk: &mut Walk,
    set: &Set,
    link: &Link,
) -> Result<Set, LinkFault>
    requires walked { HasWalked house.now recs.now walk.old }
    requires text { length link.now.set_text < 2 ^ 32 }
    requires epoch { set.now.epoch + 1 < 2 ^ 32 }
    ensures exact { result ≡ next_set house.now recs.now set.now link.now }
    ensures leads { IfOk result (λ next. HandsOver set.now link.now next
        × IsOnPath house.now recs.now link.now) }
    ensures walked { HasWalked house.now recs.now walk.new }
{
    let next = named_set(set, link)?;
    if !is_on_path(house, recs, walk, link) {
        return Err(LinkFault::HeadNotOnPath { len: link.len });
    }
    let text = handover_text(&set_id(set), link.len, &link.head, &set_id(&next));
    match quorum(set, &text, link.sigs.as_slice()) {
        Ok(_) => Ok(next),
        Err(fault) => Err(LinkFault::BadQuorum { fault }),
    }
}

/// The set to which the links lead from the set of epoch 0, or the first broken one.
fn last_set(
    house: &Id,
    recs: &[LogRecord],
    walk: &mut Walk,
    genesis: &Set,
    links: &[Link],
) -> Result<Set, ClaimFault>
    requires walked { HasWalked house.now recs.now walk.old }
    requires first { genesis.now.epoch ≡ 0 }
    requires few { length links.now ≤ most_links }
    requires texts { AllByRecursion (λ (link : Link). length link.set_text < 2 ^ 32) links.now }
    ensures exact { result ≡ last_set house.now recs.now 0 genesis.now links.now }
    ensures leads { IfOk result (ChainLeadsTo house.now recs.now genesis.now links.now) }
    ensures walked { HasWalked house.now recs.now walk.new }
{
    let mut set = genesis.copied();
    for (number, link) in links.iter().enumerate() {
        set = match next_set(house, recs, walk, &set, link) {
            Ok(next) => next,
            Err(fault) => {
                let link = number as u16;
                return Err(ClaimFault::BadChain { link, fault });
            }
        };
    }
    Ok(set)
}

/// What the set certifies, where the head is that of the records and a quorum signs.
#[tactic(auto, unfolding(crate::specs::FirstBroken::certified_for))]
fn certified_for(
    house: &Id,
    walk: &mut Walk,
    set: &Set,
    claim: &Claim,
) -> Result<Certified, ClaimFault>
    requires walked { HasWalked house.now claim.now.recs walk.old }
    requires few { length claim.now.recs < 2 ^ 32 }
    ensures exact { result ≡ certified_for house.now set.now claim.now }
    ensures vouched { IfOk result (λ told. IsQuorum set.now (vouched_for set.now claim.now)
        claim.now.sigs) }
{
    let recs = claim.recs.as_slice();
    walk.go_to(house, recs, recs.len());
    if walk.head != claim.head {
        return Err(ClaimFault::WrongHead {
            computed: walk.head,
            named: claim.head,
        });
    }
    let told = Certified {
        set: set_id(set),
        epoch: set.epoch,
        len: recs.len() as u32,
        head: claim.head,
    };
    let text = prefix_text(&told.set, told.len, &told.head);
    match quorum(set, &text, claim.sigs.as_slice()) {
        Ok(_) => Ok(told),
        Err(fault) => Err(ClaimFault::BadQuorum { fault }),
    }
}

/// What the claim certifies, or its first broken part.
#[tactic(auto, unfolding(crate::specs::FirstBroken::certified_of))]
fn examine(genesis: &Set, claim: &Claim) -> Result<Certified, ClaimFault>
    requires first { genesis.now.epoch ≡ 0 }
    requires small { IsSmall claim.now }
    ensures exact { result ≡ certified_of genesis.now claim.now }
    ensures found { IfOk result (λ told. (set : SetTold) × Certifies genesis.now claim.now set
        × (told ≡ certified_by set claim.now)) }
{
    let house = set_id(genesis);
    let mut walk = Walk::new(&house);
    let recs = claim.recs.as_slice();
    let set = last_set(&house, recs, &mut walk, genesis, claim.links.as_slice())?;
    certified_for(&house, &mut walk, &set, claim)
}

/// The set to which a chain of links leads along the records from that set of epoch 0, or its first
/// broken link. A seat asks it before it begins. It takes no memory.
pub fn chain_end(genesis: &Set, recs: &[LogRecord], links: &[Link]) -> Result<Set, ClaimFault>
    requires first { genesis.now.epoch ≡ 0 }
    requires few { length links.now ≤ most_links }
    requires texts { AllByRecursion (λ (link : Link). length link.set_text < 2 ^ 32) links.now }
    // What is told has a chain that leads to it.
    ensures leads { IfOk result
        (ChainLeadsTo (id_of_set genesis.now) recs.now genesis.now links.now) }
    // Which link is the first that is broken.
    ensures exact { result ≡ last_set (id_of_set genesis.now) recs.now 0 genesis.now links.now }
{
    let house = set_id(genesis);
    let mut walk = Walk::new(&house);
    last_set(&house, recs, &mut walk, genesis, links)
}

/// What the claim certifies in the house of that set of epoch 0, or its first broken part. Ledgers
/// ask it before they settle by a claim, and seats before they begin. It takes no memory.
pub fn certified(genesis: &Set, claim: &Claim) -> Result<Certified, ClaimFault>
    requires first { genesis.now.epoch ≡ 0 }
    requires small { IsSmall claim.now }
    // What is certified has a certificate.
    ensures found { IfOk result (λ told. (set : SetTold) × Certifies genesis.now claim.now set
        × (told ≡ certified_by set claim.now)) }
    // What has a certificate is certified.
    ensures only { (set : SetTold) → Certifies genesis.now claim.now set
        → result ≡ Ok (certified_by set claim.now) }
    // Which part is the first that is broken.
    ensures exact { result ≡ certified_of genesis.now claim.now }
{
    examine(genesis, claim)
}
