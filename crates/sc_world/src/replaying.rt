//! The replay of rows: the world that a lawful journal of a scenario leaves, or the first row that
//! is not lawful.
ghost use Rattle.std.specs.Prelude.{◌<◌, ◌^◌, length, IfOk, MatchResult};
ghost use Rattle.sc_actor.specs.Mail.{mails};
ghost use Rattle.sc_scenario.specs.scenario.Valid.{IsValid};
ghost use Rattle.sc_world_replay.specs.Replays.{IsReplayed};
ghost use Rattle.sc_meaning.specs.sound.Players.{system_of, schedule, as_nodes};
ghost use Rattle.sc_world.specs.ReplayErrors.{IsReplayError};
ghost use Rattle.sc_world.specs.Worlds.{StandsFor};
ghost use Rattle.sc_texts.specs.chance.KeyStream.{two_words};

use crate::counting::parties_of;
use crate::laws::valid_scenarios_can_play;
use crate::party::Party;
use crate::seating::{births, schedule};
use crate::worlds::World;
use sc_actor::{Journal, Row};
use sc_base::OutOfMemory;
use sc_law_groups::valid_journals_are_sound;
use sc_law_refusal::valid_journals_refuse_with_cause;
use sc_mail::Mail;
use sc_scenario::Scenario;
use sc_words::OrderLine;
use sc_world_replay::{Verdict, replay};
use std::alloc::Global;

/// Why rows are not replayed.
#[derive(Clone, Copy, Debug, PartialEq, Eq)]
pub enum ReplayError {
    /// The rows are no lawful journal: the row with this number, from 1, is the first that is not
    /// lawful.
    BadRow { at: u32 },
    OutOfMemory,
}

impl From<OutOfMemory> for ReplayError {
    ghost use Rattle.std.specs.Prelude.{◌≡◌};
    ghost use Rattle.sc_world.specs.declared.replaying.ReplayError.TheVariants.{OutOfMemory};

    ghost from_gives = { λ _ error. error ≡ OutOfMemory };

    fn from(_short: OutOfMemory) -> ReplayError {
        ReplayError::OutOfMemory
    }
}

// Returns what rows leave where they are lawful for a scenario, and else the first row that is not.
fn taken(
    alloc: Global,
    scenario: &Scenario,
    rows: &[Row<Mail, OrderLine>],
) -> Result<Verdict<Party>, OutOfMemory>
    requires valid { IsValid scenario.now }
    requires few_rows { length rows.now < 2 ^ 31 }
    requires few_mails { length (mails rows.now) < 2 ^ 31 }
    ensures { IfOk result (λ verdict.
        IsReplayed (system_of as_nodes two_words scenario.now) (schedule scenario.now) rows.now
        verdict) }
{
    valid_scenarios_can_play();
    let seats = births(alloc, scenario)?;
    let lines = schedule(alloc, scenario)?;
    replay(alloc, seats, lines.as_slice(), rows)
}

/// Replays the rows of a scenario and returns the world that they leave, where they are lawful;
/// each prefix of them is then sound, and each refusal has its cause. The scenario has to be valid,
/// and rows and their mails fewer than 2^31 each.
///
/// Errors: `BadRow` names the first row that is not lawful; `OutOfMemory` may come for any rows.
pub fn replay_rows<'a>(
    alloc: Global,
    scenario: &'a Scenario,
    rows: &'a Journal<Mail, OrderLine>,
) -> Result<World<'a>, ReplayError>
    requires valid { IsValid scenario.now }
    requires few_rows { length rows.now < 2 ^ 31 }
    requires few_mails { length (mails rows.now) < 2 ^ 31 }
    ensures { MatchResult result (λ world. StandsFor scenario.now rows.now world)
        (λ error. IsReplayError scenario.now rows.now error) }
{
    valid_journals_are_sound();
    valid_journals_refuse_with_cause();
    let verdict = taken(alloc, scenario, rows.as_slice())?;
    match verdict {
        Verdict::BadRow { at } => Err(ReplayError::BadRow { at: at as u32 }),
        Verdict::Lawful(left) => {
            let parties = parties_of(alloc, left.seats)?;
            Ok(World {
                scenario,
                rows,
                parties,
                skipped: left.skipped,
                quiet: left.quiet,
            })
        }
    }
}
