//! Texts of lines. A text is lines, each ended by a line feed, which the last may lack; a line is
//! words with one space between each two; a word is a name, a number in decimal, an id in
//! hexadecimal digits, or what the format makes of it. Every text format of bytes outside a message
//! is such lines, so their grammar, its readers and its laws are stated here, once.
//!
//! - `text_line`: a line, and whether a line feed ends it.
//! - `lines`: a text line by line.
//! - `words`: a line word by word, with a reader for each kind of word.
//! - `number`: decimal numbers of any length.
//! - `id_word`: ids in hexadecimal digits.
//! - `place`: where a byte stands.
//! - `laws`: one spelling each.
#![tactic(auto)]

mod id_word;
pub mod laws;
pub mod lines;
pub mod number;
mod place;
pub mod text_line;
pub mod words;

pub use lines::Lines;
pub use number::Number;
pub use text_line::{TextLine, is_passed_over};
pub use words::Words;
