//! What is sent for an executed command: the answer to a request, the report of an order,
//! and the mails of a transaction.
ghost use Rattle.std.specs.Prelude.{◌≡◌, [], true, false, OnOk, IsOk};
ghost use Rattle.sc_node_table.specs.Execute.{order_result, effect_reported, announced};
ghost use Rattle.sc_node_table.specs.Spoken.{spoken};
ghost use Rattle.sc_node_parts.specs.replica.Requests.{is_request};

use sc_base::{OutOfMemory, Sequence};
use sc_mail::Mail;
use sc_node_parts::transactions;
use sc_node_replica::Replica;
use sc_node_table::Before;
use sc_words::{Command, Effect, OrderResult};

/// Returns whether a command is a request.
fn is_request(command: &Command) -> bool
    ensures { result ≡ is_request command.now }
{
    match command {
        Command::Call { .. } => true,
        _ => false,
    }
}

/// Returns the result of a join or a leave that is reported to the desk. None for other commands: splits
/// and transactions are reported apart.
fn order_result(command: &Command, effect: &Effect) -> Option<OrderResult>
    ensures { result ≡ order_result command.now effect.now }
{
    match command {
        Command::Join { .. } | Command::Leave { .. } => effect.reported(),
        Command::Noop
        | Command::Call { .. }
        | Command::Split { .. }
        | Command::Begin { .. }
        | Command::Prepared { .. }
        | Command::RecordVote { .. }
        | Command::GiveUp { .. }
        | Command::Finish { .. }
        | Command::Watched { .. }
        | Command::RecordWatch { .. } => None,
    }
}

/// Answers a request whose entry was counted here. Nothing else is sent for it.
#[tactic(auto, using(crate::proofs::Saying::nothing_of_requests))]
fn answer_request(
    replica: &mut Replica,
    counted: bool,
    before: &Before,
    effect: Effect,
    command: &Command,
    out: &mut Sequence<Mail>,
) -> Result<(), OutOfMemory>
    requires { is_request command.now ≡ true }
    ensures row { OnOk result
        ((replica.new, out.new)
        ≡ spoken counted before.now effect command.now
        (announced counted effect command.now (replica.old, out.old))) }
    ensures uncounted { counted ≡ false → IsOk result }
{
    replica.answer_counted(counted, effect, command, out)
}

/// Sends what a split or a transaction has to say of the command.
#[tactic(auto, unfolding(sc_node_table::specs::Spoken::spoken))]
fn speak(
    replica: &Replica,
    counted: bool,
    before: &Before,
    effect: &Effect,
    command: &Command,
    out: &mut Sequence<Mail>,
) -> Result<(), OutOfMemory>
    ensures row { OnOk result
        ((replica.now, out.new)
        ≡ spoken counted before.now effect.now command.now (replica.now, out.old)) }
    ensures none { (spoken counted before.now effect.now command.now (replica.now, [])).1 ≡ [] →
        IsOk result }
{
    transactions::speak(
        replica.alloc(),
        counted,
        replica.machine(),
        replica.me(),
        before,
        effect,
        command,
        out,
    )
}

/// Reports a command other than a request to the desk, and sends what its transaction has to say.
#[tactic(auto, using(crate::proofs::Saying::no_answer_of_others))]
fn report_others(
    replica: &Replica,
    counted: bool,
    before: &Before,
    effect: &Effect,
    command: &Command,
    out: &mut Sequence<Mail>,
) -> Result<(), OutOfMemory>
    requires { is_request command.now ≡ false }
    ensures row { OnOk result
        ((replica.now, out.new)
        ≡ spoken counted before.now effect.now command.now
        (announced counted effect.now command.now (replica.now, out.old))) }
    ensures none { (spoken counted before.now effect.now command.now
        (announced counted effect.now command.now (replica.now, []))).1 ≡ [] → IsOk result }
{
    replica.report_effect(order_result(command, effect), command, out)?;
    speak(replica, counted, before, effect, command, out)
}

/// Sends what a command causes, counted or learnt, by its effect and the group before it.
pub(crate) fn announce(
    replica: &mut Replica,
    counted: bool,
    before: &Before,
    effect: Effect,
    command: &Command,
    out: &mut Sequence<Mail>,
) -> Result<(), OutOfMemory>
    ensures row { OnOk result
        ((replica.new, out.new)
        ≡ spoken counted before.now effect command.now
        (announced counted effect command.now (replica.old, out.old))) }
    ensures uncounted { is_request command.now ≡ true → counted ≡ false → IsOk result }
    ensures none { is_request command.now ≡ false →
        (spoken counted before.now effect command.now
        (announced counted effect command.now (replica.old, []))).1 ≡ [] → IsOk result }
{
    if is_request(command) {
        return answer_request(replica, counted, before, effect, command, out);
    }
    report_others(replica, counted, before, &effect, command, out)
}
