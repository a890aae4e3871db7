//! Whether stored rows are a lawful journal.
ghost use Rattle.std.specs.Prelude.{◌<◌, ◌^◌, length, IfOk, MatchOption};
ghost use Rattle.sc_actor.specs.Mail.{mails};
ghost use Rattle.sc_texts.specs.chance.KeyStream.{two_words};
ghost use Rattle.sc_meaning.specs.sound.Players.{Lawful, as_nodes};
ghost use Rattle.sc_world.specs.ReplayErrors.{IsBadRow};
ghost use Rattle.sc_scenario.specs.scenario.Valid.{IsValid};
ghost use Rattle.sc_meaning.specs.sound.Soundness.{IsSoundThroughout};
ghost use Rattle.sc_law_refusal.specs.refusal.Journals.{RefusesWithCause};
ghost use Rattle.sc_run.specs.Audited.{LawfulFilesAreConfirmed, PrintedJournalsAreConfirmed};
ghost use Rattle.sc_run.specs.Run.{AuditsAs};

use crate::done::Text;
use crate::texts::{lawful_line, text_of_rows, unlawful_line};
use sc_actor::Journal;
use sc_base::OutOfMemory;
use sc_cli::Said;
use sc_json_journal::{files_have_one_verdict, printed_files_are_files};
use sc_mail::Mail;
use sc_scenario::Scenario;
use sc_words::OrderLine;
use sc_world::{ReplayError, replay_rows};
use std::alloc::Global;

/// Returns the number of the first row that is not lawful, from 1, if there is one. Fails only
/// where it runs out of memory.
pub(crate) fn bad_row(
    alloc: Global,
    scenario: &Scenario,
    rows: &Journal<Mail, OrderLine>,
) -> Result<Option<u32>, OutOfMemory>
    requires valid { IsValid scenario.now }
    requires few_rows { length rows.now < 2 ^ 31 }
    requires few_mails { length (mails rows.now) < 2 ^ 31 }
    ensures { IfOk result (λ bad. MatchOption bad
        (Lawful as_nodes two_words scenario.now rows.now
        × IsSoundThroughout as_nodes scenario.now rows.now
        × RefusesWithCause as_nodes scenario.now rows.now)
        (λ at. IsBadRow scenario.now rows.now at)) }
{
    match replay_rows(alloc, scenario, rows) {
        Ok(_world) => Ok(None),
        Err(ReplayError::BadRow { at }) => Ok(Some(at)),
        Err(ReplayError::OutOfMemory) => Err(OutOfMemory),
    }
}

/// Returns the text that rows are a lawful journal of a scenario, or else the text that names the
/// first that is not lawful. The scenario is one that some text is, or that is made, and there are
/// fewer than 2^31 rows and fewer than 2^31 mails. Fails only where it runs out of memory.
pub fn audit(
    alloc: Global,
    scenario: &Scenario,
    rows: Journal<Mail, OrderLine>,
) -> Result<(Said, Text), OutOfMemory>
    requires valid { IsValid scenario.now }
    requires few_rows { length rows < 2 ^ 31 }
    requires few_mails { length (mails rows) < 2 ^ 31 }
    ensures { IfOk result (λ begun. AuditsAs scenario.now rows begun.0 begun.1) }
{
    match bad_row(alloc, scenario, &rows)? {
        None => {
            let line = lawful_line(alloc, rows.len() as u64)?;
            Ok((Said::Lawful, text_of_rows(alloc, line, rows)?))
        }
        Some(at) => {
            let line = unlawful_line(alloc, at)?;
            Ok((Said::Unlawful, text_of_rows(alloc, line, rows)?))
        }
    }
}

/// States that an audit of a file whose rows are a lawful journal of its scenario says yes, unless
/// a read error comes; and that an audit of what was printed as a stored journal, within the limit of
/// files, does.
pub fn lawful_journals_are_confirmed()
    ensures files { LawfulFilesAreConfirmed }
    ensures printed { PrintedJournalsAreConfirmed }
{
    files_have_one_verdict();
    printed_files_are_files();
}
