//! The lines of the schedule that are no orders.
ghost use Rattle.std.specs.Prelude.{◌≡◌, map};
ghost use Rattle.sc_scenario.specs.scenario.Schedules.{actor_in, line_in};
ghost use Rattle.sc_texts.specs.declared.lines.kinds.LineKind.TheVariants.{Go, Deliver, Drop, Again, Tick, Crash, Settle, Free, Storm};

use crate::scenario::scenarios::SchedLine;
use sc_base::{MOST_CLIENTS, MOST_NODES, read_number};
use sc_texts::{LineKind, Reason, count_in, nth};

const MOST_MAILS: u32 = 4_294_967_295;

const MOST_DELIVERIES: u32 = 1_000_000;

const MOST_WORKERS: u32 = 16;

const LAST_STORM: u64 = 18_446_744_073_709_551_615;

// Returns the number of the actor that a word spells, if it spells one.
fn actor_in(word: &[u8]) -> Option<u32>
    ensures { result ≡ actor_in word.now }
{
    match word {
        [b'n', digits @ ..] => count_in(digits, MOST_NODES),
        [b'c', digits @ ..] => Some(MOST_NODES + count_in(digits, MOST_CLIENTS)?),
        _ => None,
    }
}

fn go_in(words: &[&[u8]]) -> Result<SchedLine, Reason>
    ensures { result ≡ line_in Go (map (λ word. word.now) words.now) }
{
    let client = count_in(nth(words, 1), MOST_CLIENTS).ok_or(Reason::BadNumber)?;
    Ok(SchedLine::Go {
        client: client as u16,
    })
}

fn deliver_in(words: &[&[u8]]) -> Result<SchedLine, Reason>
    ensures { result ≡ line_in Deliver (map (λ word. word.now) words.now) }
{
    let who = actor_in(nth(words, 1)).ok_or(Reason::BadNumber)?;
    let k = count_in(nth(words, 2), MOST_MAILS).ok_or(Reason::BadNumber)?;
    Ok(SchedLine::Deliver { who, k })
}

fn drop_in(words: &[&[u8]]) -> Result<SchedLine, Reason>
    ensures { result ≡ line_in Drop (map (λ word. word.now) words.now) }
{
    let who = actor_in(nth(words, 1)).ok_or(Reason::BadNumber)?;
    let k = count_in(nth(words, 2), MOST_MAILS).ok_or(Reason::BadNumber)?;
    Ok(SchedLine::Drop { who, k })
}

fn again_in(words: &[&[u8]]) -> Result<SchedLine, Reason>
    ensures { result ≡ line_in Again (map (λ word. word.now) words.now) }
{
    let mail = count_in(nth(words, 1), MOST_MAILS).ok_or(Reason::BadNumber)?;
    Ok(SchedLine::Again { mail })
}

fn tick_in(words: &[&[u8]]) -> Result<SchedLine, Reason>
    ensures { result ≡ line_in Tick (map (λ word. word.now) words.now) }
{
    let who = actor_in(nth(words, 1)).ok_or(Reason::BadNumber)?;
    Ok(SchedLine::Tick { who })
}

fn crash_in(words: &[&[u8]]) -> Result<SchedLine, Reason>
    ensures { result ≡ line_in Crash (map (λ word. word.now) words.now) }
{
    let node = count_in(nth(words, 1), MOST_NODES).ok_or(Reason::BadNumber)?;
    Ok(SchedLine::Crash { node: node as u16 })
}

fn settle_in(words: &[&[u8]]) -> Result<SchedLine, Reason>
    ensures { result ≡ line_in Settle (map (λ word. word.now) words.now) }
{
    let most = count_in(nth(words, 1), MOST_DELIVERIES).ok_or(Reason::BadNumber)?;
    Ok(SchedLine::Settle { most })
}

fn free_in(words: &[&[u8]]) -> Result<SchedLine, Reason>
    ensures { result ≡ line_in Free (map (λ word. word.now) words.now) }
{
    let most = count_in(nth(words, 1), MOST_DELIVERIES).ok_or(Reason::BadNumber)?;
    let workers = count_in(nth(words, 2), MOST_WORKERS).ok_or(Reason::BadNumber)?;
    Ok(SchedLine::Free { most, workers })
}

fn storm_in(words: &[&[u8]]) -> Result<SchedLine, Reason>
    ensures { result ≡ line_in Storm (map (λ word. word.now) words.now) }
{
    let number = read_number(nth(words, 1), LAST_STORM).ok_or(Reason::BadNumber)?;
    let most = count_in(nth(words, 2), MOST_DELIVERIES).ok_or(Reason::BadNumber)?;
    Ok(SchedLine::Storm { number, most })
}

/// Returns the line of this kind that these words spell. The error is `BadNumber`, where one of
/// them is no number or actor in its range.
pub(crate) fn line_in(kind: LineKind, words: &[&[u8]]) -> Result<SchedLine, Reason>
    ensures { result ≡ line_in kind (map (λ word. word.now) words.now) }
{
    match kind {
        LineKind::Go => go_in(words),
        LineKind::Deliver => deliver_in(words),
        LineKind::Drop => drop_in(words),
        LineKind::Again => again_in(words),
        LineKind::Tick => tick_in(words),
        LineKind::Crash => crash_in(words),
        LineKind::Settle => settle_in(words),
        LineKind::Free => free_in(words),
        LineKind::Storm => storm_in(words),
    }
}
