//! Plain scenarios end quiet within their budget. Each delivery lowers a potential, an upper
//! bound of the deliveries that are still to come, by at least one; so no line of deliveries ends
//! with mail pending. Definitions and laws, no logic.
//!
//! A schedule is plain where it has `go`, `settle` and `free` lines alone. With R requests and G
//! groups its budget is R * (32 + 4 * G) deliveries in each `settle` and `free` line. The crate
//! also has what holds between two orders of a calm schedule, from a quiet journal on: one with
//! no mail pending, from which on clients may ask.
#![tactic(auto)]

ghost use Rattle.sc_live_plain.specs.LastLine.{LastLinesAreLight, LastLinesEndQuiet};
ghost use Rattle.sc_live_plain.specs.PlainLaws.{MadeScenariosAreAtBudget, PlainJournalsAreLight, PlainLinesEndQuiet};

use sc_scenario::valid_scenarios_are_bounded;

/// Proves that in each lawful journal of a valid plain scenario at its budget no line of deliveries
/// is cut off: each ends with no mail pending, in whichever order threads deliver. In such a
/// journal each actor takes its mail in ascending order of number.
pub fn plain_lines_end_quiet()
    ensures { PlainLinesEndQuiet }
{}

/// Proves that each whole lawful journal of a valid plain scenario whose last line alone is at the
/// budget ends with no mail pending, whatever lines before it were cut off.
pub fn last_lines_end_quiet()
    ensures { LastLinesEndQuiet }
{
    valid_scenarios_are_bounded();
}

/// Proves that no lawful journal of a valid plain scenario at its budget counts more than 2^30
/// bytes, the limit of journals. A line has room for at most 1,000,000 deliveries, so the journal
/// has few rows and little mail, and requests are short.
pub fn plain_journals_are_light()
    ensures { PlainJournalsAreLight }
{
    valid_scenarios_are_bounded();
}

/// Proves that no lawful journal of a valid plain scenario whose last line alone is at the budget
/// counts more than 2^30 bytes, the limit of journals: that line has room for at most 1,000,000
/// deliveries, which bounds the budget.
pub fn last_lines_are_light()
    ensures { LastLinesAreLight }
{
    valid_scenarios_are_bounded();
}

/// Proves that every scenario that `make` generates, of up to 1,000 requests a client, is plain and
/// at its budget.
pub fn made_scenarios_are_at_budget()
    ensures { MadeScenariosAreAtBudget }
{}
