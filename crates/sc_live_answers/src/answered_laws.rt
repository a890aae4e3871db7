//! Calm scenarios are answered, at their budget or where no line was cut off. Definitions and laws, no logic.
ghost use Rattle.sc_live_answers.specs.AnsweredRequests.{CalmJournalsGoOn, CalmLinesSettle, CalmRequestsAreAnswered, SettledRequestsAreAnswered};
ghost use Rattle.sc_live_plain.specs.LastLine.{LastLinesAnswer};
ghost use Rattle.sc_live_answers.specs.OrdersInQuiet.{OrdersInQuietAreReported, StartedRequestsAreAnswered};
ghost use Rattle.sc_live_answers.specs.ReportedOrders.{SettledOrdersAreReported};
ghost use Rattle.sc_live_plain.specs.PlainLaws.{PlainRequestsAreAnswered};

use sc_law_groups::valid_journals_are_sound;
use sc_live_plain::{last_lines_end_quiet, plain_journals_are_light, plain_lines_end_quiet};
use sc_scenario::valid_scenarios_are_bounded;

/// Proves that a valid calm scenario at its budget that gives an order has charts as `AreCharted`
/// asks, by which the rows of its lawful journals find what the potential needs, and that each
/// lawful journal of it with no mail pending is a quiet journal (`IsQuietJournal`). The proof cuts
/// a journal into segments, requests or one order, each from a quiet prefix on.
pub fn calm_journals_go_on()
    ensures { CalmJournalsGoOn }
{
    valid_scenarios_are_bounded();
}

/// Proves that in each lawful journal of a valid calm scenario at its budget no line of deliveries
/// is cut off: each ends with no mail pending, in whichever order threads deliver. In such a
/// journal each actor takes its mail in ascending order of number.
pub fn calm_lines_settle()
    ensures { CalmLinesSettle }
{
    calm_journals_go_on();
    plain_lines_end_quiet();
}

/// Proves that in each whole lawful journal of a valid calm scenario at its budget every request
/// is answered of a client whose `go` line is followed by a line of deliveries: the client kept a
/// reply to each of its requests.
pub fn calm_requests_are_answered()
    ensures { CalmRequestsAreAnswered }
{
    valid_scenarios_are_bounded();
    valid_journals_are_sound();
    calm_lines_settle();
    calm_journals_go_on();
    plain_journals_are_answered();
}

/// States, of each whole journal of a valid calm scenario in which no line of deliveries was cut off
/// and that has at most 2^28 rows: every request of a client whose go line is followed by a line of
/// deliveries is answered: the client kept a reply to each. No line needs room for a budget.
pub fn settled_requests_are_answered()
    ensures { SettledRequestsAreAnswered }
{
    valid_scenarios_are_bounded();
    valid_journals_are_sound();
    calm_journals_go_on();
}

/// Proves that in each whole lawful journal of a valid calm scenario in which no line of deliveries
/// was cut off, and that has at most 2^28 rows, a result of each order is reported to the desk:
/// done, committed, refused with its cause, or aborted. No order stays open, and an order is
/// reported as aborted only where a group voted No in its transaction.
pub fn settled_orders_are_reported()
    ensures { SettledOrdersAreReported }
{
    valid_scenarios_are_bounded();
    calm_journals_go_on();
}

/// Proves that in each whole lawful journal of a valid plain scenario at its budget every request
/// is answered of a client whose `go` line is followed by a line of deliveries: the client kept a
/// reply to each of its requests. A plain scenario is a calm one without orders, and at its budget
/// none of its lines is cut off.
pub fn plain_journals_are_answered()
    ensures { PlainRequestsAreAnswered }
{
    plain_lines_end_quiet();
    plain_journals_are_light();
    settled_requests_are_answered();
}

/// Proves that in each whole lawful journal, of at most 2^28 rows, of a valid plain scenario whose
/// last line alone is at the budget every request is answered of a client that has a `go` line:
/// the client kept a reply to each. Lines before the last may have been cut off.
pub fn last_lines_answer()
    ensures { LastLinesAnswer }
{
    valid_scenarios_are_bounded();
    valid_journals_are_sound();
    last_lines_end_quiet();
    calm_journals_go_on();
}

/// Proves, of each lawful journal of a valid scenario whose lines start clients, deliver pending
/// mail, of one actor the first, or give orders, and that has at most 2^28 rows: where each order is
/// given while no mail is pending, each client starts where no mail was pending since the last
/// order, and no mail is pending at the end, every request of a client that has started is answered,
/// and, where the journal is whole, a result of each order is reported to the desk.
pub fn orders_in_quiet_are_answered()
    ensures requests { StartedRequestsAreAnswered }
    ensures orders { OrdersInQuietAreReported }
{
    valid_scenarios_are_bounded();
    valid_journals_are_sound();
    calm_journals_go_on();
}
