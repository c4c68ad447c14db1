//! Reading the words with which lines and texts begin.

ghost use Rattle.std.specs.Prelude.{◌≡◌};
ghost use Rattle.house_words.specs.Keywords.{
  declaration_keyword,
  list_building_keyword,
  claim_building_keyword,
  building_keyword,
  text_keyword,
  party_event_keyword,
  seat_event_keyword,
  event_keyword,
};

use crate::keyword::{BuildingKeyword, DeclarationKeyword, EventKeyword, TextKeyword};

#[tactic(auto, unfolding(crate::specs::Keywords::declaration_keyword))]
pub fn declaration_keyword(word: &[u8]) -> Option<DeclarationKeyword>
    ensures { result ≡ declaration_keyword word.now }
{
    if word == b"party".as_slice() {
        return Some(DeclarationKeyword::Party);
    }
    if word == b"seat".as_slice() {
        return Some(DeclarationKeyword::Seat);
    }
    if word == b"set".as_slice() {
        return Some(DeclarationKeyword::Set);
    }
    if word == b"ledger".as_slice() {
        return Some(DeclarationKeyword::Ledger);
    }
    if word == b"open".as_slice() {
        return Some(DeclarationKeyword::Open);
    }
    if word == b"deal".as_slice() {
        return Some(DeclarationKeyword::Deal);
    }
    if word == b"step".as_slice() {
        return Some(DeclarationKeyword::Step);
    }
    None
}

/// Lines that build envelopes, lists of records and terms.
fn list_building_keyword(word: &[u8]) -> Option<BuildingKeyword>
    ensures { result ≡ list_building_keyword word.now }
{
    if word == b"forge".as_slice() {
        return Some(BuildingKeyword::Forge);
    }
    if word == b"flip".as_slice() {
        return Some(BuildingKeyword::Flip);
    }
    if word == b"log".as_slice() {
        return Some(BuildingKeyword::Log);
    }
    if word == b"rec".as_slice() {
        return Some(BuildingKeyword::Record);
    }
    if word == b"take".as_slice() {
        return Some(BuildingKeyword::Take);
    }
    if word == b"term".as_slice() {
        return Some(BuildingKeyword::Term);
    }
    None
}

/// Lines that build claims.
fn claim_building_keyword(word: &[u8]) -> Option<BuildingKeyword>
    ensures { result ≡ claim_building_keyword word.now }
{
    if word == b"claim".as_slice() {
        return Some(BuildingKeyword::Claim);
    }
    if word == b"cut".as_slice() {
        return Some(BuildingKeyword::Cut);
    }
    if word == b"link".as_slice() {
        return Some(BuildingKeyword::Link);
    }
    if word == b"linkby".as_slice() {
        return Some(BuildingKeyword::LinkBy);
    }
    if word == b"by".as_slice() {
        return Some(BuildingKeyword::By);
    }
    if word == b"sclaim".as_slice() {
        return Some(BuildingKeyword::StatusClaim);
    }
    None
}

#[tactic(auto, unfolding(crate::specs::Keywords::building_keyword))]
pub fn building_keyword(word: &[u8]) -> Option<BuildingKeyword>
    ensures { result ≡ building_keyword word.now }
{
    match list_building_keyword(word) {
        Some(keyword) => Some(keyword),
        None => claim_building_keyword(word),
    }
}

#[tactic(auto, unfolding(crate::specs::Keywords::text_keyword))]
pub fn text_keyword(word: &[u8]) -> Option<TextKeyword>
    ensures { result ≡ text_keyword word.now }
{
    if word == b"register".as_slice() {
        return Some(TextKeyword::Register);
    }
    if word == b"pay".as_slice() {
        return Some(TextKeyword::Pay);
    }
    if word == b"escrow".as_slice() {
        return Some(TextKeyword::Escrow);
    }
    if word == b"transfer".as_slice() {
        return Some(TextKeyword::Transfer);
    }
    if word == b"start".as_slice() {
        return Some(TextKeyword::Start);
    }
    if word == b"vote".as_slice() {
        return Some(TextKeyword::Vote);
    }
    if word == b"prefix".as_slice() {
        return Some(TextKeyword::Prefix);
    }
    if word == b"handover".as_slice() {
        return Some(TextKeyword::Handover);
    }
    if word == b"status".as_slice() {
        return Some(TextKeyword::Status);
    }
    if word == b"bytes".as_slice() {
        return Some(TextKeyword::Bytes);
    }
    None
}

/// Events of ledgers and parties.
fn party_event_keyword(word: &[u8]) -> Option<EventKeyword>
    ensures { result ≡ party_event_keyword word.now }
{
    if word == b"deliver".as_slice() {
        return Some(EventKeyword::Deliver);
    }
    if word == b"show".as_slice() {
        return Some(EventKeyword::Show);
    }
    if word == b"ask".as_slice() {
        return Some(EventKeyword::Ask);
    }
    if word == b"join".as_slice() {
        return Some(EventKeyword::Join);
    }
    if word == b"next".as_slice() {
        return Some(EventKeyword::Next);
    }
    if word == b"again".as_slice() {
        return Some(EventKeyword::Again);
    }
    if word == b"start".as_slice() {
        return Some(EventKeyword::Start);
    }
    if word == b"commit".as_slice() {
        return Some(EventKeyword::Commit);
    }
    if word == b"abort".as_slice() {
        return Some(EventKeyword::Abort);
    }
    if word == b"tick".as_slice() {
        return Some(EventKeyword::Tick);
    }
    if word == b"hear".as_slice() {
        return Some(EventKeyword::Hear);
    }
    None
}

/// Events of seats, and of any node.
fn seat_event_keyword(word: &[u8]) -> Option<EventKeyword>
    ensures { result ≡ seat_event_keyword word.now }
{
    if word == b"enter".as_slice() {
        return Some(EventKeyword::Enter);
    }
    if word == b"prefix".as_slice() {
        return Some(EventKeyword::Prefix);
    }
    if word == b"handover".as_slice() {
        return Some(EventKeyword::Handover);
    }
    if word == b"install".as_slice() {
        return Some(EventKeyword::Install);
    }
    if word == b"fail".as_slice() {
        return Some(EventKeyword::Fail);
    }
    if word == b"stop".as_slice() {
        return Some(EventKeyword::Stop);
    }
    if word == b"reopen".as_slice() {
        return Some(EventKeyword::Reopen);
    }
    if word == b"status".as_slice() {
        return Some(EventKeyword::Status);
    }
    None
}

#[tactic(auto, unfolding(crate::specs::Keywords::event_keyword))]
pub fn event_keyword(word: &[u8]) -> Option<EventKeyword>
    ensures { result ≡ event_keyword word.now }
{
    match party_event_keyword(word) {
        Some(keyword) => Some(keyword),
        None => seat_event_keyword(word),
    }
}
