//! The commands of the program.

ghost use Rattle.std.specs.Prelude.{◌≡◌, map, string_bytes};
ghost use Rattle.deal_desk.specs.Commands.{command_of, command_named};

/// What the words ask for.
#[derive(Clone, Copy, Debug, PartialEq, Eq)]
pub enum Command {
    /// The clearing of a deal.
    Clear,
    /// The report of a plain script.
    Rehearse,
}

impl Command {
    /// The command of this name.
    fn named(word: &str) -> Option<Command>
        ensures { result ≡ command_named word.now }
    {
        if word == "clear" {
            return Some(Command::Clear);
        }
        if word == "rehearse" {
            return Some(Command::Rehearse);
        }
        None
    }

    /// The command that the words ask for.
    pub fn from_words(words: &[String]) -> Option<Command>
        ensures { result ≡ command_of (map string_bytes words.now) }
    {
        match words {
            [word] => Command::named(word.as_str()),
            _ => None,
        }
    }
}
