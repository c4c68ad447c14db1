//! Reading the word with which a line begins.

ghost use Rattle.std.specs.Prelude.{◌≡◌};
ghost use Rattle.plain_script.specs.Said.{opening_keyword, event_keyword, keyword_of};

use crate::keyword::Keyword;

fn opening_keyword(word: &[u8]) -> Option<Keyword>
    ensures { result ≡ opening_keyword word.now }
{
    if word == b"plain".as_slice() {
        return Some(Keyword::Plain);
    }
    if word == b"house".as_slice() {
        return Some(Keyword::House);
    }
    if word == b"begin".as_slice() {
        return Some(Keyword::Begin);
    }
    if word == b"ledger".as_slice() {
        return Some(Keyword::Ledger);
    }
    if word == b"open".as_slice() {
        return Some(Keyword::Open);
    }
    if word == b"deal".as_slice() {
        return Some(Keyword::Deal);
    }
    None
}

fn event_keyword(word: &[u8]) -> Option<Keyword>
    ensures { result ≡ event_keyword word.now }
{
    if word == b"register".as_slice() {
        return Some(Keyword::Register);
    }
    if word == b"escrow".as_slice() {
        return Some(Keyword::Escrow);
    }
    if word == b"transfer".as_slice() {
        return Some(Keyword::Transfer);
    }
    if word == b"start".as_slice() {
        return Some(Keyword::Start);
    }
    if word == b"commit".as_slice() {
        return Some(Keyword::Commit);
    }
    if word == b"abort".as_slice() {
        return Some(Keyword::Abort);
    }
    if word == b"claim".as_slice() {
        return Some(Keyword::Claim);
    }
    None
}

/// The keyword that the word is.
#[tactic(auto, unfolding(crate::specs::Said::keyword_of))]
pub fn keyword(word: &[u8]) -> Option<Keyword>
    ensures { result ≡ keyword_of word.now }
{
    match opening_keyword(word) {
        Some(keyword) => Some(keyword),
        None => event_keyword(word),
    }
}
