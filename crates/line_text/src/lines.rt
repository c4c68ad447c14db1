//! A text line by line.

ghost use Rattle.std.specs.Prelude.{◌≡◌, ◌≤◌, [], ◌∷◌, length, IfSome, IfNone};
ghost use Rattle.line_text.specs.Lines.{lines_of};
ghost use Rattle.line_text.specs.Seen.{line_of};

use crate::place::place_of;
use crate::text_line::TextLine;
use std::marker::Model;

/// The lines of a text that are left. A contract sees their list.
///
/// It is no `Iterator`: the one equation of `next_line` says all that a loop needs, the list left
/// as its measure too.
#[derive(Debug, Drop)]
pub struct Lines<'a> {
    rest: &'a [u8],
}

impl<'a> Model for Lines<'a> {
    ghost use Rattle.std.specs.Prelude.{List};
    ghost use Rattle.line_text.specs.Lines.{Line, lines_of};

    ghost Value = { List Line };

    ghost view = { λ a. lines_of a.rest.now };
}

impl<'a> Lines<'a> {
    /// All lines of the text.
    pub fn new(text: &'a [u8]) -> Lines<'a>
        ensures lines { result ≡ lines_of text.now }
        ensures few { length result ≤ length text.now }
    {
        Lines { rest: text }
    }

    /// Takes the next line. All calls together go over the text once.
    pub fn next_line(&mut self) -> Option<TextLine<'a>>
        ensures line { IfSome result (λ line. self.old ≡ line_of line ∷ self.new) }
        ensures none { IfNone result ((self.old ≡ []) × (self.new ≡ [])) }
    {
        let (line, rest) = first_line(self.rest)?;
        self.rest = rest;
        Some(line)
    }
}

/// The first line and what stands behind it, where the text isn't empty.
fn first_line(text: &[u8]) -> Option<(TextLine<'_>, &[u8])>
    ensures line { IfSome result (λ found. lines_of text.now
        ≡ line_of found.0 ∷ lines_of found.1.now) }
    ensures none { IfNone result (text.now ≡ []) }
{
    if text.is_empty() {
        return None;
    }
    let (line, rest) = text.split_at(place_of(b'\n', text));
    match rest {
        [] => Some((
            TextLine {
                text: line,
                ended: false,
            },
            rest,
        )),
        [_, rest @ ..] => Some((
            TextLine {
                text: line,
                ended: true,
            },
            rest,
        )),
    }
}
