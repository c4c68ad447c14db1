//! Logs that are built again, and the room of a log.

use super::*;

/// The first holder's account and 15 others.
fn sixteen(alloc: Global) -> Result<[Id; 16], Fail> {
    let mut accounts = [Id([9; 32]); 16];
    for index in 1..16 {
        accounts[index] = Id([100 + index as u8; 32]);
    }
    accounts[0] = account(alloc, 1)?;
    Ok(accounts)
}

/// The texts of so many deals of 16 parties.
fn wide_texts(alloc: Global, count: u8) -> Result<Vec<List<u8>>, Fail> {
    let accounts = sixteen(alloc)?;
    let mut texts = Vec::new(alloc);
    for number in 0..count {
        texts.push(List::from_vec(deal_text(alloc, number, &HOUSE, &accounts)?))?;
    }
    Ok(texts)
}

/// A log that the first holder asked to start each deal, and its last answer.
fn all_started(alloc: Global, texts: &[List<u8>]) -> Result<(VoteLog, String), Fail> {
    let mut log = VoteLog::new(alloc, &HOUSE);
    let mut last = String::new(alloc);
    for text in texts {
        let post = Post::Start {
            holder: 1,
            text: text.as_slice(),
        };
        last = answers(alloc, &mut log, &[post])?;
    }
    Ok((log, last))
}

/// What a log with 240 deals of 16 parties answers to a deal of 15 parties and a vote on it.
fn last_answers(alloc: Global, log: &mut VoteLog) -> Result<String, Fail> {
    let accounts = sixteen(alloc)?;
    let text = deal_text(alloc, 240, &HOUSE, &accounts[..15])?;
    let posts = [
        Post::Start {
            holder: 1,
            text: &text,
        },
        by_first(Outcome::Commit, 0, digest(&text)),
    ];
    answers(alloc, log, &posts)
}

#[test]
fn log_room(rt: HostRuntime) -> Result<(), Fail> {
    let alloc = rt.alloc();
    let (mut log, told) = all_started(alloc, &wide_texts(alloc, 241)?)?;
    assert!(rt; told.as_str() == "7 LogFull 240 3840\n");
    assert!(rt; last_answers(alloc, &mut log)?.as_str() == "240\n241\n");
    Ok(())
}

/// How a log is built again of the records and the texts: its length, or the fault, as it is told.
fn rebuilt(alloc: Global, recs: &[LogRecord], texts: &[List<u8>]) -> Result<String, Fail> {
    if recs.len() > 4096 {
        return Err(Fail::from("long"));
    }
    match VoteLog::rebuild(alloc, &HOUSE, recs, texts) {
        Ok(log) => Ok(format!(in alloc; "{}", log.recs().len())?),
        Err(fault) => Ok(format!(in alloc; "{fault}")?),
    }
}

#[test]
fn a_log_is_built_again(rt: HostRuntime) -> Result<(), Fail> {
    let alloc = rt.alloc();
    let texts = wide_texts(alloc, 9)?;
    let (log, told) = all_started(alloc, texts.as_slice())?;
    assert!(rt; told.as_str() == "8\n");
    assert!(rt; rebuilt(alloc, log.recs(), texts.as_slice())?.as_str() == "9");
    let less = wide_texts(alloc, 7)?;
    let missing = rebuilt(alloc, log.recs(), less.as_slice())?;
    assert!(rt; missing.as_str() == "2 TextMissing 7");
    Ok(())
}

#[test]
fn records_at_fault_are_named_first(rt: HostRuntime) -> Result<(), Fail> {
    let deal = Id([7; 32]);
    let recs = [
        LogRecord::start(2, deal),
        LogRecord::vote(Outcome::Commit, 0, deal),
        LogRecord::vote(Outcome::Commit, 0, deal),
    ];
    assert!(rt; rebuilt(rt.alloc(), &recs, &[])?.as_str() == "1 BadRecords 2");
    assert!(rt; rebuilt(rt.alloc(), &recs[..2], &[])?.as_str() == "2 TextMissing 0");
    Ok(())
}

#[test]
fn a_decided_deal_needs_no_text(rt: HostRuntime) -> Result<(), Fail> {
    let alloc = rt.alloc();
    let deal = Id([7; 32]);
    let recs = [
        LogRecord::start(2, deal),
        LogRecord::vote(Outcome::Abort, 0, deal),
    ];
    let text = List::from_vec(pair(alloc)?);
    assert!(rt; rebuilt(alloc, &recs, &[text])?.as_str() == "2");
    Ok(())
}
