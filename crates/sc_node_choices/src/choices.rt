//! Choices that depend on the executed state, or on a number.
ghost use Rattle.std.specs.Prelude.{◌≡◌, ◌≤◌, ◌==◌, ◌&&◌, length};
ghost use Rattle.sc_words.specs.ideal.IdealStore.{key_of, holds_key};
ghost use Rattle.sc_node_table.specs.Replica.{floor_of, waits_in};
ghost use Rattle.sc_node_table.specs.Pump.{admits_requests, waits, turned_down, refused_by};
ghost use Rattle.sc_node_table.specs.Policy.{is_free};
ghost use Rattle.sc_node_table.specs.Rows.{request_refusal};

use sc_base::{Op, RingArc};
use sc_mail::AnswerBody;
use sc_node_table::CUT_UNIT;
use sc_words::{Command, Core, Lock};
use std::collections::VecDeque;

// Returns whether requests get slots under this lock.
fn admits_requests(lock: &Lock) -> bool
    ensures { result ≡ admits_requests lock.now }
{
    match lock {
        Lock::Free | Lock::Watching { .. } => true,
        Lock::Coordinating { .. } | Lock::Promised { .. } => false,
    }
}

// Returns whether an arc holds the key of an operation.
fn holds_key(arc: &RingArc, op: &Op) -> bool
    ensures { result ≡ holds_key arc.now (key_of op.now) }
{
    arc.holds(op.key().pos())
}

/// Returns why a request is not taken, the first of these that holds: the group is gone, the
/// replica does not run, another group has the key. None where it is taken; then it waits for a
/// slot, whatever it asks for.
pub fn request_refusal(core: &Core, running: bool, hint: Option<u16>, op: &Op) -> Option<AnswerBody>
    ensures { result ≡ request_refusal core.now.gone core.now running hint op.now }
{
    if let Some(into) = &core.gone {
        return Some(AnswerBody::Gone { into: *into });
    }
    if !running {
        return Some(AnswerBody::NotLeader { hint });
    }
    if admits_requests(&core.lock) && !holds_key(&core.arc, op) {
        return Some(AnswerBody::NotMine {
            arc: core.arc,
            succ: core.succ,
        });
    }
    None
}

/// Returns whether a command at the head of the queue has to wait: a request for the lock, and an
/// order also for what is in flight or ready.
pub fn waits(idle: bool, lock: &Lock, command: &Command) -> bool
    ensures { result ≡ waits idle lock.now command.now }
{
    match command {
        Command::Call { .. } => !admits_requests(lock),
        _ => !admits_requests(lock) || !idle,
    }
}

/// Returns the answer to a request that the group does not serve. None for another command.
pub fn turned_down(core: &Core, command: &Command) -> Option<AnswerBody>
    ensures { result ≡ turned_down core.now command.now }
{
    match command {
        Command::Call { op, .. } => refused_by(core, op),
        _ => None,
    }
}

/// Returns why the group does not serve an operation: it is gone, or another group has the key.
fn refused_by(core: &Core, op: &Op) -> Option<AnswerBody>
    ensures { result ≡ refused_by core.now.gone core.now op.now }
{
    if let Some(into) = &core.gone {
        return Some(AnswerBody::Gone { into: *into });
    }
    if holds_key(&core.arc, op) {
        return None;
    }
    Some(AnswerBody::NotMine {
        arc: core.arc,
        succ: core.succ,
    })
}

// Returns whether no transaction holds a group.
fn is_free(lock: &Lock) -> bool
    ensures { result ≡ is_free lock.now }
{
    match lock {
        Lock::Free => true,
        Lock::Coordinating { .. } | Lock::Promised { .. } | Lock::Watching { .. } => false,
    }
}

/// Returns whether a replica is at rest: nothing is in flight or ready (`idle`), nothing is queued,
/// and no transaction holds its group.
pub fn is_at_rest(
    idle: bool,
    acts: &VecDeque<Command>,
    backlog: &VecDeque<Command>,
    lock: &Lock,
) -> bool
    ensures { result ≡ (idle && (length acts.now.items == 0) && (length backlog.now.items == 0)
        && is_free lock.now) }
{
    idle && acts.is_empty() && backlog.is_empty() && is_free(lock)
}

/// Returns the number of ticks that a transaction has waited: 0 where the group is not locked.
pub fn waits_in(lock: &Lock, waits: u32) -> u32
    ensures { result ≡ waits_in lock.now waits }
{
    match lock {
        Lock::Free => 0,
        Lock::Coordinating { .. } | Lock::Promised { .. } | Lock::Watching { .. } => waits,
    }
}

/// Returns the slot up to which entries and accepted commands are forgotten, by the last executed
/// slot.
pub fn floor_of(last: u32) -> u32
    ensures same { result ≡ floor_of last }
    ensures most { floor_of last ≤ last }
{
    (CUT_UNIT * (last / CUT_UNIT)).saturating_sub(CUT_UNIT)
}
