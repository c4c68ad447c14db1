//! A line of a text.

ghost use Rattle.std.specs.Prelude.{◌≡◌};
ghost use Rattle.line_text.specs.Lines.{is_passed_over as passed_over};

/// A line, without the line feed that ends it.
#[derive(Clone, Copy, Debug, PartialEq, Eq)]
pub struct TextLine<'a> {
    pub text: &'a [u8],
    /// Whether a line feed ends it. Only the last line of a text may lack it.
    pub ended: bool,
}

/// Whether scripts pass over a line of this text: it is empty or begins with `#`.
pub fn is_passed_over(text: &[u8]) -> bool
    ensures { result ≡ passed_over text.now }
{
    match text {
        [] => true,
        [first, ..] => *first == b'#',
    }
}
