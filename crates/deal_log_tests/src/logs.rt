//! A house with deals of rings of parties, each of which passes one gold to the next. A test posts
//! a course of envelopes and compares the answers, a line each.

mod rebuilds;

ghost use Rattle.std.specs.Prelude.{◌≡◌};

use act_text::{Act, write_act};
use deal_log::*;
use dh_base::{Id, List, Outcome, digest};
use key_ring::{Envelope, KeySpec, account_of, make_envelope, make_ring};
use std::alloc::Global;
use std::test::Fail;
use vote_log::{Decision, LogRecord};

const HOUSE: Id = Id([5; 32]);

/// The most bytes that an envelope says.
const MOST_SAID: usize = 16384;

/// What a holder posts to a log.
#[derive(Clone, Copy)]
enum Post<'a> {
    /// The start of the deal of the text.
    Start {
        holder: u8,
        text: &'a [u8],
    },
    /// A vote as the party of that index.
    Vote {
        holder: u8,
        choice: Outcome,
        index: u16,
        deal: Id,
    },
    /// Bytes, under a key number that is given in their envelope.
    Bytes {
        holder: u8,
        bytes: &'a [u8],
        key: u32,
    },
}

/// What makes the ring of one key of a holder.
fn spec_of(holder: u8) -> KeySpec
    ensures { result.size ≡ 1 }
{
    KeySpec {
        seed: [holder; 32],
        ident: [holder; 16],
        size: 1,
    }
}

/// The account of the holder's ring.
fn account(alloc: Global, holder: u8) -> Result<Id, Fail> {
    let ring = make_ring(alloc, &spec_of(holder))?;
    Ok(account_of(ring.as_slice()))
}

/// A line of a deal text for each party, which says its account.
fn party_lines(alloc: Global, accounts: &[Id]) -> Result<String, Fail> {
    let mut lines = String::new(alloc);
    for (index, account) in accounts.iter().enumerate() {
        lines.push_str(&format!(in alloc; "party p{index} {account}\n")?)?;
    }
    Ok(lines)
}

/// A line of a deal text for each party, which passes one gold to the next.
fn step_lines(alloc: Global, parties: u16) -> Result<String, Fail> {
    let mut lines = String::new(alloc);
    for index in 0..parties {
        let next = if index + 1 == parties { 0 } else { index + 1 };
        lines.push_str(&format!(in alloc; "step p{index} p{next} bank gold 1\n")?)?;
    }
    Ok(lines)
}

/// The text of a deal of these accounts, at most 16, of a name that ends in the number.
fn deal_text(alloc: Global, number: u8, house: &Id, accounts: &[Id]) -> Result<Vec<u8>, Fail> {
    let mut text = format!(in alloc; "deal d{number}\nhouse {house}\n")?;
    text.push_str(&party_lines(alloc, accounts)?)?;
    text.push_str(&step_lines(alloc, accounts.len().min(16) as u16)?)?;
    Ok(text.into_bytes())
}

/// The deal of the first two holders.
fn pair(alloc: Global) -> Result<Vec<u8>, Fail> {
    deal_text(alloc, 0, &HOUSE, &[account(alloc, 1)?, account(alloc, 2)?])
}

/// The text of an act that starts the deal.
fn start_text(alloc: Global, text: &[u8]) -> Result<List<u8>, Fail> {
    if text.len() > 16000 {
        return Err(Fail::from("long"));
    }
    let text = List::from_vec(Vec::from_slice(alloc, text)?);
    Ok(write_act(alloc, &Act::StartDeal { text })?)
}

/// The text of a vote.
fn vote_text(alloc: Global, deal: Id, index: u16, choice: Outcome) -> Result<List<u8>, Fail> {
    let act = Act::Vote {
        deal,
        index,
        choice,
    };
    Ok(write_act(alloc, &act)?)
}

/// The holder says the bytes.
fn said(alloc: Global, holder: u8, bytes: &[u8]) -> Result<Envelope, Fail> {
    if bytes.len() > MOST_SAID {
        return Err(Fail::from("long"));
    }
    Ok(make_envelope(alloc, &spec_of(holder), 0, bytes)?)
}

/// The bytes in an envelope that gives that key number.
fn said_under(alloc: Global, holder: u8, bytes: &[u8], key: u32) -> Result<Envelope, Fail> {
    let mut env = said(alloc, holder, bytes)?;
    env.q = key;
    Ok(env)
}

fn envelope(alloc: Global, post: &Post<'_>) -> Result<Envelope, Fail> {
    match post {
        Post::Start { holder, text } => {
            said(alloc, *holder, start_text(alloc, text)?.as_slice())
        }
        Post::Vote {
            holder,
            choice,
            index,
            deal,
        } => said(
            alloc,
            *holder,
            vote_text(alloc, *deal, *index, *choice)?.as_slice(),
        ),
        Post::Bytes { holder, bytes, key } => said_under(alloc, *holder, bytes, *key),
    }
}

/// What the log answers, as it is told.
fn answer(alloc: Global, log: &mut VoteLog, env: &Envelope) -> Result<String, Fail> {
    if env.message.len() > MOST_SAID {
        return Err(Fail::from("long"));
    }
    match log.admit(env) {
        Ok(place) => Ok(format!(in alloc; "{place}\n")?),
        Err(fault) => Ok(format!(in alloc; "{fault}\n")?),
    }
}

/// What the log answers to each, a line each.
fn answers(alloc: Global, log: &mut VoteLog, posts: &[Post<'_>]) -> Result<String, Fail> {
    let mut told = String::new(alloc);
    for post in posts {
        let env = envelope(alloc, post)?;
        told.push_str(&answer(alloc, log, &env)?)?;
    }
    Ok(told)
}

/// The answers of a new log.
fn course(alloc: Global, posts: &[Post<'_>]) -> Result<String, Fail> {
    answers(alloc, &mut VoteLog::new(alloc, &HOUSE), posts)
}

/// A log that started the deal of the first two holders.
fn started(alloc: Global, text: &[u8]) -> Result<VoteLog, Fail> {
    let mut log = VoteLog::new(alloc, &HOUSE);
    let told = answers(alloc, &mut log, &[Post::Start { holder: 1, text }])?;
    if told.as_str() == "0\n" {
        Ok(log)
    } else {
        Err(Fail::from("not started"))
    }
}

#[test]
fn a_deal_is_started_once_by_a_party(rt: HostRuntime) -> Result<(), Fail> {
    let alloc = rt.alloc();
    let text = pair(alloc)?;
    let posts = [
        Post::Start {
            holder: 3,
            text: &text,
        },
        Post::Start {
            holder: 2,
            text: &text,
        },
        Post::Start {
            holder: 1,
            text: &text,
        },
    ];
    let stranger = account(alloc, 3)?;
    let wanted = format!(in alloc; "5 NotAParty {stranger}\n0\n6 StartedAlready 0\n")?;
    assert!(rt; course(alloc, &posts)? == wanted);
    Ok(())
}

#[test]
fn a_started_deal_is_kept_with_its_text(rt: HostRuntime) -> Result<(), Fail> {
    let alloc = rt.alloc();
    let text = pair(alloc)?;
    let log = started(alloc, &text)?;
    let deal = digest(&text);
    assert!(rt; log.recs() == [LogRecord::start(2, deal)].as_slice());
    assert!(rt; log.text_of(&deal) == Some(text.as_slice()));
    assert!(rt; log.text_of(&HOUSE).is_none());
    Ok(())
}

#[test]
fn a_deal_of_another_house_is_refused(rt: HostRuntime) -> Result<(), Fail> {
    let alloc = rt.alloc();
    let named = Id([6; 32]);
    let text = deal_text(alloc, 0, &named, &[account(alloc, 1)?, account(alloc, 2)?])?;
    let wanted = format!(in alloc; "4 WrongHouse {named}\n")?;
    let posts = [Post::Start {
        holder: 1,
        text: &text,
    }];
    assert!(rt; course(alloc, &posts)? == wanted);
    Ok(())
}

#[test]
fn what_is_no_start_is_refused(rt: HostRuntime) -> Result<(), Fail> {
    let posts = [
        Post::Start {
            holder: 1,
            text: b"deal d\n",
        },
        Post::Bytes {
            holder: 1,
            bytes: b"hello",
            key: 0,
        },
        Post::Bytes {
            holder: 1,
            bytes: b"hello",
            key: 1,
        },
    ];
    let wanted = "3 BadDeal 1 BadLine 2\n2 BadAct 1 BadTag\n1 BadEnvelope 3 KeyOutside 1 1\n";
    assert!(rt; course(rt.alloc(), &posts)?.as_str() == wanted);
    Ok(())
}

/// A vote of the first holder.
fn by_first(choice: Outcome, index: u16, deal: Id) -> Post<'static> {
    Post::Vote {
        holder: 1,
        choice,
        index,
        deal,
    }
}

#[test]
fn votes_are_the_parties_own(rt: HostRuntime) -> Result<(), Fail> {
    let alloc = rt.alloc();
    let text = pair(alloc)?;
    let deal = digest(&text);
    let posts = [
        by_first(Outcome::Commit, 0, HOUSE),
        by_first(Outcome::Commit, 1, deal),
        by_first(Outcome::Abort, 40000, deal),
    ];
    let own = account(alloc, 1)?;
    let wanted = format!(in alloc; "8 NotStarted\n5 NotAParty {own}\n5 NotAParty {own}\n")?;
    assert!(rt; answers(alloc, &mut started(alloc, &text)?, &posts)? == wanted);
    Ok(())
}

#[test]
fn a_decided_deal_takes_no_vote(rt: HostRuntime) -> Result<(), Fail> {
    let alloc = rt.alloc();
    let text = pair(alloc)?;
    let deal = digest(&text);
    let last = Post::Vote {
        holder: 2,
        choice: Outcome::Commit,
        index: 1,
        deal,
    };
    let posts = [
        by_first(Outcome::Commit, 0, deal),
        by_first(Outcome::Commit, 0, deal),
        last,
        by_first(Outcome::Abort, 0, deal),
    ];
    let told = answers(alloc, &mut started(alloc, &text)?, &posts)?;
    assert!(rt; told.as_str() == "1\n10 VotedAlready 1\n2\n9 Decided 2 commit\n");
    Ok(())
}

/// What the log decided of the deal behind a vote of the first holder.
fn decided(alloc: Global, text: &[u8], choice: Outcome) -> Result<Option<Decision>, Fail> {
    let deal = digest(text);
    let mut log = started(alloc, text)?;
    let _told = answers(alloc, &mut log, &[by_first(choice, 0, deal)])?;
    Ok(log.decision(&deal))
}

#[test]
fn one_abort_decides(rt: HostRuntime) -> Result<(), Fail> {
    let alloc = rt.alloc();
    let text = pair(alloc)?;
    let outcome = Outcome::Abort;
    assert!(rt; decided(alloc, &text, outcome)? == Some(Decision { outcome, at: 1 }));
    assert!(rt; decided(alloc, &text, Outcome::Commit)?.is_none());
    Ok(())
}

/// A log that took the start of the deal and took it back.
fn taken_back(alloc: Global, env: &Envelope) -> Result<VoteLog, Fail> {
    let mut log = VoteLog::new(alloc, &HOUSE);
    if env.message.len() > MOST_SAID {
        return Err(Fail::from("long"));
    }
    match log.admit(env) {
        Ok(_) => log.take_back(),
        Err(_) => return Err(Fail::from("refused")),
    }
    Ok(log)
}

#[test]
fn what_was_taken_last_is_taken_back(rt: HostRuntime) -> Result<(), Fail> {
    let alloc = rt.alloc();
    let text = pair(alloc)?;
    let first = envelope(
        alloc,
        &Post::Start {
            holder: 1,
            text: &text,
        },
    )?;
    let mut log = taken_back(alloc, &first)?;
    assert!(rt; log.recs().is_empty() && log.text_of(&digest(&text)).is_none());
    assert!(rt; answer(alloc, &mut log, &first)?.as_str() == "0\n");
    Ok(())
}

/// The posting that the envelope asks for.
fn asked(alloc: Global, env: &Envelope) -> Result<Posting, Fail> {
    if env.message.len() > MOST_SAID {
        return Err(Fail::from("long"));
    }
    match read_posting(alloc, env) {
        Ok(posting) => Ok(posting),
        Err(_) => Err(Fail::from("nothing asked")),
    }
}

#[test]
fn what_is_asked_can_be_read_first(rt: HostRuntime) -> Result<(), Fail> {
    let alloc = rt.alloc();
    let text = pair(alloc)?;
    let deal = digest(&text);
    let posting = asked(alloc, &envelope(alloc, &by_first(Outcome::Abort, 0, deal))?)?;
    assert!(rt; posting.record() == Some(LogRecord::vote(Outcome::Abort, 0, deal)));
    assert!(rt; started(alloc, &text)?.take(posting).ok() == Some(1));
    Ok(())
}
