//! The program. `deal_desk clear` reads the text of a deal from standard input and writes its
//! clearing; `deal_desk rehearse` reads a script and writes its report. [`run::run`] is the top
//! call, over any source and sink; `main` gives it those of the system.
#![tactic(auto)]

mod answer;
mod answering;
mod command;
mod ending;
mod reading;
mod run;
#[cfg(test)]
mod tests;
mod writing;

use dh_base::{NoMemory, ReaderSource, WriterSink};
use run::run;
use std::process::ExitCode;
use std::{env, io};

/// The words behind the program's own name. Where one is no text there are none, and so none that
/// the program knows.
fn words(rt: &HostRuntime) -> Result<Vec<String>, NoMemory> {
    let mut words = Vec::new(rt.alloc());
    let all = match env::args(rt) {
        Ok(all) => all,
        Err(error) if error.kind() == io::ErrorKind::OutOfMemory => return Err(NoMemory),
        Err(_) => return Ok(words),
    };
    for word in all.skip(1) {
        words.push(word)?;
    }
    Ok(words)
}

fn main(rt: HostRuntime) -> ExitCode {
    let Ok(words) = words(&rt) else {
        return ExitCode::from(7);
    };
    let mut input = ReaderSource::new(rt.reader());
    let mut output = WriterSink::new(io::writer(&rt));
    ExitCode::from(run(rt.alloc(), &words, &mut input, &mut output))
}
