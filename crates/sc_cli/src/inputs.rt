//! What an input is.
ghost use Rattle.std.specs.Prelude.{◌≤◌, ◌+◌, MatchResult};
ghost use Rattle.sc_json_journal.specs.file.Stored.{most_file_bytes, IsBadFile};
ghost use Rattle.sc_texts.specs.lines.Lines.{most_bytes};
ghost use Rattle.sc_cli.specs.Errors.{HasError, IsBadText};
ghost use Rattle.sc_cli.specs.Inputs.{ReadsFile, ReadsScenario, ReadsText};

use crate::errors::InputError;
use sc_actor::Journal;
use sc_json_journal::{FILE_LIMIT, first_file_bytes_decide, read_file, scenarios_are_short};
use sc_mail::Mail;
use sc_scenario::{INPUT_LIMIT, Scenario, first_bytes_decide, read_scenario};
use sc_texts::{Source, read_all};
use sc_words::OrderLine;
use std::alloc::Global;

/// Reads the scenario that an input is. Fails with the first bad line of the input and its reason,
/// at a read error, and where it runs out of memory.
pub fn scenario_in<S: Source>(alloc: Global, input: &mut S) -> Result<Scenario, InputError>
    ensures read { MatchResult result (λ scenario. ReadsScenario (S.left input.old) scenario)
        (λ error. HasError IsBadText (record {
          left = S.left input.old;
          errors_before = S.errors input.old;
          errors_after = S.errors input.new;
        }) error) }
    ensures calls { S.calls input.new ≤ S.calls input.old + (most_bytes + 2) }
{
    let bytes = read_all(alloc, input, INPUT_LIMIT)?;
    first_bytes_decide();
    Ok(read_scenario(alloc, &bytes)?)
}

/// Reads the scenario that an input is, and returns the input's bytes beside it. Fails as
/// `scenario_in` does.
pub fn text_in<S: Source>(alloc: Global, input: &mut S) -> Result<(Scenario, Vec<u8>), InputError>
    ensures read { MatchResult result (λ read. ReadsText (S.left input.old) read.0 read.1.items)
        (λ error. HasError IsBadText (record {
          left = S.left input.old;
          errors_before = S.errors input.old;
          errors_after = S.errors input.new;
        }) error) }
    ensures calls { S.calls input.new ≤ S.calls input.old + (most_bytes + 2) }
{
    let bytes = read_all(alloc, input, INPUT_LIMIT)?;
    first_bytes_decide();
    scenarios_are_short();
    let scenario = read_scenario(alloc, &bytes)?;
    Ok((scenario, bytes))
}

/// Reads the scenario and the rows of the journal that an input stores. Fails with the first bad
/// line of the input and its reason, at a read error, and where it runs out of memory.
pub fn file_in<S: Source>(
    alloc: Global,
    input: &mut S,
) -> Result<(Scenario, Journal<Mail, OrderLine>), InputError>
    ensures read { MatchResult result (λ read. ReadsFile (S.left input.old) read.0 read.1)
        (λ error. HasError IsBadFile (record {
          left = S.left input.old;
          errors_before = S.errors input.old;
          errors_after = S.errors input.new;
        }) error) }
    ensures calls { S.calls input.new ≤ S.calls input.old + (most_file_bytes + 2) }
{
    let file = read_all(alloc, input, FILE_LIMIT)?;
    first_file_bytes_decide();
    Ok(read_file(alloc, &file)?)
}
