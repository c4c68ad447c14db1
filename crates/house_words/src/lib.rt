//! The words of house scripts: the keywords with which lines begin, kinds of words, and tails of
//! several words that lines share.
//!
//! - `keyword`, `first_word`: the keywords, and reading them.
//! - `word_kinds`: words that are one of two texts, numbers of 64 bits, bytes.
//! - `tails`: what stands behind a keyword.
#![tactic(auto)]

pub mod first_word;
pub mod keyword;
pub mod tails;
pub mod word_kinds;

pub use first_word::{building_keyword, declaration_keyword, event_keyword, text_keyword};
pub use keyword::{BuildingKeyword, DeclarationKeyword, EventKeyword, TextKeyword};
