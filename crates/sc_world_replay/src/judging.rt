//! The replay of a whole journal: what it leaves, or its first row that is not lawful.
ghost use Rattle.std.specs.Prelude.{◌≡◌, ◌<◌, ◌^◌, ◌↔◌, [], None, true, false, length, IfOk, IsOk, IsTrue, is_none};
ghost use Rattle.sc_actor.specs.Mail.{mails, pending};
ghost use Rattle.sc_actor.specs.System.{are_apart, system, numbers_of, kth};
ghost use Rattle.sc_actor.specs.Walk.{IsLawful};
ghost use Rattle.sc_texts.specs.chance.KeyStream.{two_words};
ghost use Rattle.sc_world_replay.specs.Replays.{IsReplayed, says_lawful};
ghost use Rattle.sc_world_replay.specs.Stages.{IsUpToDate};

use crate::checked::Checked;
use crate::checking::check_line;
use crate::pending::is_quiet;
use crate::stages::Stage;
use sc_actor::{Actor, Journal, Line, Row, Seat};
use sc_base::{OutOfMemory, Same};
use std::alloc::Global;

/// What lawful rows leave.
#[derive(Drop)]
pub struct Replayed<A> {
    /// The actors with their numbers, as their rows leave them.
    pub seats: Vec<Seat<A>>,
    /// Whether no mail is pending.
    pub quiet: bool,
    /// The number of lines that were skipped.
    pub skipped: u64,
    /// Whether a line of many deliveries ended with mail pending.
    pub unsettled: bool,
}

/// The answer of a replay.
#[derive(Drop)]
pub enum Verdict<A> {
    /// The rows are lawful, and leave this.
    Lawful(Replayed<A>),
    /// The row at the place `at`, from 1, is the first that is not lawful.
    BadRow { at: usize },
}

// Returns what a stage leaves.
fn left_by<A: Actor>(stage: Stage<A, A::Mail, A::Order>) -> Replayed<A>
    requires { IsUpToDate A.Mail.receiver stage }
    ensures { result
        ≡ record {
          seats = stage.seats;
          quiet = is_none
              (kth (pending A.Mail.receiver (numbers_of stage.seats.items) stage.rows None) 1);
          skipped = stage.skipped;
          unsettled = stage.unsettled;
        } }
{
    let quiet = is_quiet(&stage);
    Replayed {
        seats: stage.seats,
        quiet,
        skipped: stage.skipped,
        unsettled: stage.unsettled,
    }
}

// Returns the stage before the first row.
fn begun<A, M, O>(alloc: Global, seats: Vec<Seat<A>>) -> Stage<A, M, O>
    ensures seats { result.seats ≡ seats }
    ensures rows { result.rows ≡ [] }
    ensures mails { result.mails.items ≡ [] }
    ensures pending { result.pending.items ≡ [] }
    ensures started { result.started.items ≡ [] }
    ensures crashed { result.crashed.items ≡ [] }
    ensures skipped { result.skipped ≡ 0 }
    ensures unsettled { result.unsettled ≡ false }
{
    Stage {
        seats,
        rows: Journal::new(alloc),
        mails: Vec::new(alloc),
        pending: Vec::new(alloc),
        started: Vec::new(alloc),
        crashed: Vec::new(alloc),
        skipped: 0,
        unsettled: false,
    }
}

/// Replays the rows over a schedule of these actors, from their births, row by row, and stops at
/// the first that the schedule does not allow. Returns what they leave where they are lawful, and
/// else which row, from 1, is the first that is not lawful. The rows may end before the schedule
/// does.
///
/// The numbers of the actors must differ, and there must be fewer than 2^31 rows and mails.
pub fn replay<A: Actor>(
    alloc: Global,
    seats: Vec<Seat<A>>,
    lines: &[Line<A::Order>],
    rows: &[Row<A::Mail, A::Order>],
) -> Result<Verdict<A>, OutOfMemory>
where
    A::Mail: Same,
    A::Order: Same,
    requires apart { are_apart seats.items ≡ true }
    requires few_rows { length rows.now < 2 ^ 31 }
    requires few_mails { length (mails rows.now) < 2 ^ 31 }
    ensures replayed { IfOk result
        (λ verdict.
        IsReplayed (system A.table A.Mail.receiver two_words seats.items) lines.now rows.now
        verdict) }
    ensures none { lines.now ≡ [] → IsOk result }
{
    let mut stage = begun(alloc, seats);
    for line in lines {
        match check_line(alloc, &mut stage, line, rows)? {
            Checked::On => {}
            Checked::Ended => return Ok(Verdict::Lawful(left_by(stage))),
            Checked::Wrong => {
                return Ok(Verdict::BadRow {
                    at: stage.rows.len() + 1,
                });
            }
        }
    }
    if stage.rows.len() < rows.len() {
        return Ok(Verdict::BadRow {
            at: stage.rows.len() + 1,
        });
    }
    Ok(Verdict::Lawful(left_by(stage)))
}

// Returns whether the answer of a replay is that the rows are lawful.
fn says_lawful<A>(verdict: &Verdict<A>) -> bool
    ensures { result ≡ says_lawful verdict.now }
{
    match verdict {
        Verdict::Lawful(_) => true,
        Verdict::BadRow { .. } => false,
    }
}

/// Returns whether the rows are lawful for a schedule of these actors. The numbers of the actors
/// must differ, and there must be fewer than 2^31 rows and mails.
pub fn is_lawful<A: Actor>(
    alloc: Global,
    seats: Vec<Seat<A>>,
    lines: &[Line<A::Order>],
    rows: &[Row<A::Mail, A::Order>],
) -> Result<bool, OutOfMemory>
where
    A::Mail: Same,
    A::Order: Same,
    requires apart { are_apart seats.items ≡ true }
    requires few_rows { length rows.now < 2 ^ 31 }
    requires few_mails { length (mails rows.now) < 2 ^ 31 }
    ensures lawful { IfOk result
        (λ lawful.
        IsTrue lawful ↔ IsLawful (system A.table A.Mail.receiver two_words seats.items) lines.now
        rows.now) }
    ensures none { lines.now ≡ [] → IsOk result }
{
    let verdict = replay(alloc, seats, lines, rows)?;
    Ok(says_lawful(&verdict))
}
