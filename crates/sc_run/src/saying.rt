//! Which text is begun, by what the arguments ask for and what the input is.
ghost use Rattle.std.specs.Prelude.{◌≡◌, ◌≤◌, ◌+◌, false, map, string_bytes, IfOk};
ghost use Rattle.sc_json_journal.specs.file.Stored.{most_file_bytes};
ghost use Rattle.sc_texts.specs.lines.Lines.{most_bytes};
ghost use Rattle.sc_scenario.specs.scenario.Made.{made_scenario};
ghost use Rattle.sc_cli.specs.Inputs.{most_takes};
ghost use Rattle.sc_cli.specs.Subcommands.{reads_input};
ghost use Rattle.sc_cli.specs.declared.said.Said.TheVariants.{Usage};
ghost use Rattle.sc_run.specs.Run.{usage, Audits, Explains, Keeps, PlaysMade, Reads, Says, Scans, IsLineText};
ghost use Rattle.sc_run.specs.Refusals.{IsErrorText};

use crate::auditing::audit;
use crate::done::Text;
use crate::explaining::explain_stored;
use crate::making::made_scenario;
use crate::reporting::{report, store};
use crate::showing::show;
use crate::texts::line_text;
use sc_actor::Gate;
use sc_base::OutOfMemory;
use sc_cli::{
    InputError, Said, Sight, Subcommand, error_text, file_in, scenario_in, subcommand_by, text_in,
};
use sc_live_plain::made_scenarios_are_at_budget;
use sc_texts::Source;
use sc_thread_workers::Way;
use std::alloc::Global;
use std::sync::Wait;
use std::thread::Threads;

// Returns the text about an input that is not what was asked for.
fn refuse(alloc: Global, error: InputError) -> Result<(Said, Text), OutOfMemory>
    ensures { IfOk result (λ begun. IsErrorText error begun.0 begun.1) }
{
    match error {
        InputError::Failed => {
            let text = line_text(alloc, b"read fault")?;
            Ok((Said::ReadError, text))
        }
        InputError::Bad { line, why } => {
            let message = error_text(alloc, line, why)?;
            let text = line_text(alloc, message.as_slice())?;
            Ok((Said::BadScenario, text))
        }
        InputError::OutOfMemory => Err(OutOfMemory),
    }
}

// Returns the text of the usage line.
fn usage_text(alloc: Global) -> Result<(Said, Text), OutOfMemory>
    ensures { IfOk result (λ begun. (begun.0 ≡ Usage) × IsLineText usage begun.1) }
{
    let text = line_text(
        alloc,
        b"usage: scatter run | scatter make N S | scatter journal | scatter audit \
        | scatter scan LO LEN R MOST | scatter pool | scatter explain",
    )?;
    Ok((Said::Usage, text))
}

// Returns the report of the scenario that the input is, or the text about the input where it is
// none.
fn report_input<S: Source, G: Gate, R: Threads + Wait + Sync>(
    rt: &R,
    alloc: Global,
    way: Way,
    input: &mut S,
    gate: &G,
) -> Result<(Said, Text), OutOfMemory>
    ensures says { IfOk result (λ begun. Reads (record {
      left = S.left input.old;
      errors_before = S.errors input.old;
      errors_after = S.errors input.new;
    }) begun.0 begun.1) }
    ensures takes { S.calls input.new ≤ S.calls input.old + (most_bytes + 2) }
{
    match scenario_in(alloc, input) {
        Ok(scenario) => report(rt, alloc, way, &scenario, gate),
        Err(error) => refuse(alloc, error),
    }
}

// Returns the stored journal of the scenario that the input is, or the text about the input where
// it is none.
fn store_input<S: Source, G: Gate, R: Threads + Wait + Sync>(
    rt: &R,
    alloc: Global,
    input: &mut S,
    gate: &G,
) -> Result<(Said, Text), OutOfMemory>
    ensures says { IfOk result (λ begun. Keeps (record {
      left = S.left input.old;
      errors_before = S.errors input.old;
      errors_after = S.errors input.new;
    }) begun.0 begun.1) }
    ensures takes { S.calls input.new ≤ S.calls input.old + (most_bytes + 2) }
{
    match text_in(alloc, input) {
        Ok((scenario, bytes)) => store(rt, alloc, &scenario, &bytes, gate),
        Err(error) => refuse(alloc, error),
    }
}

// Returns what an arc holds in a run of the scenario that the input is, or the text about the input
// where it is none.
fn show_input<S: Source, G: Gate, R: Threads + Wait + Sync>(
    rt: &R,
    alloc: Global,
    input: &mut S,
    sight: Sight,
    gate: &G,
) -> Result<(Said, Text), OutOfMemory>
    requires { 1 ≤ sight.most }
    ensures says { IfOk result (λ begun. Scans sight (record {
      left = S.left input.old;
      errors_before = S.errors input.old;
      errors_after = S.errors input.new;
    }) begun.0 begun.1) }
    ensures takes { S.calls input.new ≤ S.calls input.old + (most_bytes + 2) }
{
    match scenario_in(alloc, input) {
        Ok(scenario) => show(rt, alloc, &scenario, sight, gate),
        Err(error) => refuse(alloc, error),
    }
}

// Returns the text that says whether the journal is lawful that the input stores, or the text about
// the input where it stores none.
fn audit_input<S: Source>(alloc: Global, input: &mut S) -> Result<(Said, Text), OutOfMemory>
    ensures says { IfOk result (λ begun. Audits (record {
      left = S.left input.old;
      errors_before = S.errors input.old;
      errors_after = S.errors input.new;
    }) begun.0 begun.1) }
    ensures takes { S.calls input.new ≤ S.calls input.old + (most_file_bytes + 2) }
{
    match file_in(alloc, input) {
        Ok((scenario, rows)) => audit(alloc, &scenario, rows),
        Err(error) => refuse(alloc, error),
    }
}

// Returns what the rows decided of the journal that the input stores, if it is lawful, and else the
// text that an audit of the input has.
fn explain_input<S: Source>(alloc: Global, input: &mut S) -> Result<(Said, Text), OutOfMemory>
    ensures says { IfOk result (λ begun. Explains (record {
      left = S.left input.old;
      errors_before = S.errors input.old;
      errors_after = S.errors input.new;
    }) begun.0 begun.1) }
    ensures takes { S.calls input.new ≤ S.calls input.old + (most_file_bytes + 2) }
{
    match file_in(alloc, input) {
        Ok((scenario, rows)) => explain_stored(alloc, &scenario, rows),
        Err(error) => refuse(alloc, error),
    }
}

// Returns the report of a made scenario, of 1 to 1,000 requests a client.
fn report_made<G: Gate, R: Threads + Wait + Sync>(
    rt: &R,
    alloc: Global,
    n: u32,
    seed: u64,
    gate: &G,
) -> Result<(Said, Text), OutOfMemory>
    requires { (1 ≤ n) × (n ≤ 1000) }
    ensures { IfOk result (λ begun. PlaysMade (made_scenario n seed) begun.0 begun.1) }
{
    made_scenarios_are_at_budget();
    let scenario = made_scenario(alloc, n, seed)?;
    report(rt, alloc, Way::Runs, &scenario, gate)
}

/// Returns the text that the arguments ask for. The input is read only after `run`, `journal`,
/// `audit`, `pool` or `explain` alone, and after `scan` with its four numbers. Fails only where it
/// runs out of memory.
pub(crate) fn say<S: Source, G: Gate, R: Threads + Wait + Sync>(
    rt: &R,
    alloc: Global,
    words: &[String],
    input: &mut S,
    gate: &G,
) -> Result<(Said, Text), OutOfMemory>
    ensures says { IfOk result (λ begun. Says (map string_bytes words.now) (record {
      left = S.left input.old;
      errors_before = S.errors input.old;
      errors_after = S.errors input.new;
    })
        begun.0 begun.1) }
    ensures unread { reads_input (map string_bytes words.now) ≡ false → input.new ≡ input.old }
    ensures takes { S.calls input.new ≤ S.calls input.old
        + most_takes (map string_bytes words.now) }
{
    match subcommand_by(alloc, words)? {
        None => usage_text(alloc),
        Some(Subcommand::Run) => report_input(rt, alloc, Way::Runs, input, gate),
        Some(Subcommand::Pool) => report_input(rt, alloc, Way::Queue, input, gate),
        Some(Subcommand::Journal) => store_input(rt, alloc, input, gate),
        Some(Subcommand::Audit) => audit_input(alloc, input),
        Some(Subcommand::Explain) => explain_input(alloc, input),
        Some(Subcommand::Scan(sight)) => show_input(rt, alloc, input, sight, gate),
        Some(Subcommand::Make { n, seed }) => report_made(rt, alloc, n, seed, gate),
    }
}
