//! What the rows of a stored journal decided.
ghost use Rattle.std.specs.Prelude.{◌<◌, ◌^◌, length, IfOk};
ghost use Rattle.sc_actor.specs.Mail.{mails};
ghost use Rattle.sc_scenario.specs.scenario.Valid.{IsValid};
ghost use Rattle.sc_run.specs.Run.{ExplainsAs};

use crate::auditing::bad_row;
use crate::done::Text;
use crate::texts::{text_of_rows, unlawful_line};
use sc_actor::Journal;
use sc_base::{OutOfMemory, Sequence};
use sc_cli::Said;
use sc_explain::explain;
use sc_mail::Mail;
use sc_scenario::Scenario;
use sc_words::OrderLine;
use std::alloc::Global;

/// Returns the text of what each row decided, line by line, where rows are a lawful journal of a
/// scenario, or else the text that names the first that is not lawful, as an audit does. The
/// scenario is one that some text is, or that is made, and there are fewer than 2^31 rows and fewer
/// than 2^31 mails. Fails only where it runs out of memory.
pub fn explain_stored(
    alloc: Global,
    scenario: &Scenario,
    rows: Journal<Mail, OrderLine>,
) -> Result<(Said, Text), OutOfMemory>
    requires valid { IsValid scenario.now }
    requires few_rows { length rows < 2 ^ 31 }
    requires few_mails { length (mails rows) < 2 ^ 31 }
    ensures { IfOk result (λ begun. ExplainsAs scenario.now rows begun.0 begun.1) }
{
    match bad_row(alloc, scenario, &rows)? {
        None => {
            let groups = scenario.groups.as_slice();
            let read = rows.as_slice();
            let lines = explain(alloc, groups, read)?;
            let text = Text {
                lines,
                journal: Some(rows),
                parties: Sequence::new(alloc),
            };
            Ok((Said::Lawful, text))
        }
        Some(at) => {
            let line = unlawful_line(alloc, at)?;
            Ok((Said::Unlawful, text_of_rows(alloc, line, rows)?))
        }
    }
}
