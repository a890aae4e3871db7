//! What holds of the journals of scenarios within their budget.
ghost use Rattle.sc_run.specs.Budgets.{BudgetsSuffice};

use sc_live_answers::{
    calm_lines_settle, calm_requests_are_answered, last_lines_answer, plain_journals_are_answered,
    settled_orders_are_reported, settled_requests_are_answered,
};
use sc_live_healed::healed_stores_answer;
use sc_live_plain::{plain_journals_are_light, plain_lines_end_quiet};

/// States that in each lawful journal of a valid scenario within its budget, plain or calm, no line
/// is cut off with mail pending; in each whole one every request of a client whose `go` line is
/// followed by a line of deliveries is answered; and no journal of a plain one counts more than
/// 2^30 bytes. In each whole journal of a calm one in which no line was cut off such requests are
/// answered too, and the result of each order is reported; and in each whole journal of a plain
/// one whose last line alone is at the budget, whatever lines before it were cut off, such requests
/// are answered. In each whole journal of a scenario whose lines heal, in which no line was cut
/// off, the store heals.
pub(crate) fn budgets_suffice()
    ensures { BudgetsSuffice }
{
    plain_lines_end_quiet();
    plain_journals_are_answered();
    plain_journals_are_light();
    calm_lines_settle();
    calm_requests_are_answered();
    settled_requests_are_answered();
    last_lines_answer();
    settled_orders_are_reported();
    healed_stores_answer();
}
