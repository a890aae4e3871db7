//! The refusals of orders. Of those that hold of an order the one with the least number counts;
//! docs/SCENARIOS.md, section Orders, lists them.
ghost use Rattle.std.specs.Prelude.{◌≡◌, true, Some, None, MatchResult, nat_eq, nat_le, length};
ghost use Rattle.std.specs.List.{list_any};
ghost use Rattle.sc_base.specs.Same.{same_draw};
ghost use Rattle.sc_group_table.specs.machine.Splits.{has_named, is_locked_in};
ghost use Rattle.sc_group_table.specs.machine.Orders.{locked_in, refusal_of, refused_free, join_refused, leave_refused, split_refused, limit_refused, repart_refused, migrate_refused, body_refused, begin_refused};
ghost use Rattle.sc_group_table.specs.machine.Votes.{has_voted};
ghost use Rattle.sc_group_parts.specs.transactions.Checked.{is_checked};

use sc_base::{Draw, same_draw};
use sc_words::{Body, Command, Core, Lock, OrderRefusal};

/// The most transactions that a group may begin.
const MOST_BEGUN: u32 = 256;

/// Tests whether the command of an order is refused to a group with this record. The error is the
/// refusal with the least number of those that hold. The command is `Join`, `Leave`, `Split` or
/// `Begin`. Whether the group is gone is not tested here.
pub fn check(core: &Core, command: &Command) -> Result<(), OrderRefusal>
    requires { is_checked command.now ≡ true }
    ensures { MatchResult result (λ _. refusal_of core.now command.now ≡ None)
        (λ why. refusal_of core.now command.now ≡ Some why) }
{
    if let Some(tx) = locked_in(&core.lock) {
        return Err(OrderRefusal::InTransaction { tx });
    }
    match command {
        Command::Join { node, .. } => check_join(core, *node),
        Command::Leave { node, .. } => check_leave(core, *node),
        Command::Split { at, .. } => check_split(core, *at),
        Command::Begin { body, .. } => check_begin(core, body),
        Command::Noop
        | Command::Call { .. }
        | Command::Prepared { .. }
        | Command::RecordVote { .. }
        | Command::GiveUp { .. }
        | Command::Finish { .. }
        | Command::Watched { .. }
        | Command::RecordWatch { .. } => unreachable!(),
    }
}

/// Returns the transaction that a lock is in, if it is in one.
pub(crate) fn locked_in(lock: &Lock) -> Option<Draw>
    ensures { result ≡ locked_in lock.now }
{
    match lock {
        Lock::Free => None,
        Lock::Coordinating { tx, .. } | Lock::Promised { tx, .. } | Lock::Watching { tx, .. } => {
            Some(*tx)
        }
    }
}

fn check_join(core: &Core, node: u16) -> Result<(), OrderRefusal>
    ensures { MatchResult result (λ _. join_refused core.now node ≡ None)
        (λ why. join_refused core.now node ≡ Some why) }
{
    let is_member = core.members.has(node);
    if core.members.len() == 9 && !is_member {
        return Err(OrderRefusal::TooManyMembers { n: 10 });
    }
    if is_member {
        return Err(OrderRefusal::IsMember);
    }
    Ok(())
}

fn has_one_member(core: &Core) -> bool
    ensures { result ≡ nat_eq (length core.now.members) 1 }
{
    core.members.len() == 1
}

fn check_leave(core: &Core, node: u16) -> Result<(), OrderRefusal>
    ensures { MatchResult result (λ _. leave_refused core.now node ≡ None)
        (λ why. leave_refused core.now node ≡ Some why) }
{
    if !core.members.has(node) {
        return Err(OrderRefusal::NotMember);
    }
    if has_one_member(core) {
        return Err(OrderRefusal::LastMember);
    }
    Ok(())
}

fn check_split(core: &Core, at: u32) -> Result<(), OrderRefusal>
    ensures { MatchResult result (λ _. split_refused core.now at ≡ None)
        (λ why. split_refused core.now at ≡ Some why) }
{
    if at == core.arc.lo() || !core.arc.holds(at) {
        return Err(OrderRefusal::BadBoundary);
    }
    if has_one_member(core) {
        return Err(OrderRefusal::LastMember);
    }
    if !core.is_alone() && has_begun_all(core) {
        return Err(OrderRefusal::TxLimit);
    }
    Ok(())
}

fn has_begun_all(core: &Core) -> bool
    ensures { result ≡ nat_le 256 core.now.begun }
{
    core.begun >= MOST_BEGUN
}

fn check_limit(core: &Core) -> Result<(), OrderRefusal>
    ensures { MatchResult result (λ _. limit_refused core.now ≡ None)
        (λ why. limit_refused core.now ≡ Some why) }
{
    if has_begun_all(core) {
        return Err(OrderRefusal::TxLimit);
    }
    Ok(())
}

fn check_repart(core: &Core, at: u32) -> Result<(), OrderRefusal>
    ensures { MatchResult result (λ _. repart_refused core.now at ≡ None)
        (λ why. repart_refused core.now at ≡ Some why) }
{
    if at == core.arc.lo() || at == core.arc.end() {
        return Err(OrderRefusal::BadBoundary);
    }
    check_limit(core)
}

fn check_migrate(core: &Core, node: u16) -> Result<(), OrderRefusal>
    ensures { MatchResult result (λ _. migrate_refused core.now node ≡ None)
        (λ why. migrate_refused core.now node ≡ Some why) }
{
    if !core.members.has(node) {
        return Err(OrderRefusal::NotMember);
    }
    if has_one_member(core) {
        return Err(OrderRefusal::LastMember);
    }
    check_limit(core)
}

fn check_body(core: &Core, body: &Body) -> Result<(), OrderRefusal>
    ensures { MatchResult result (λ _. body_refused body.now core.now ≡ None)
        (λ why. body_refused body.now core.now ≡ Some why) }
{
    match body {
        Body::Merge | Body::Split { .. } => check_limit(core),
        Body::Repart { at } => check_repart(core, *at),
        Body::Migrate { node } => check_migrate(core, *node),
    }
}

fn check_begin(core: &Core, body: &Body) -> Result<(), OrderRefusal>
    ensures { MatchResult result (λ _. begin_refused core.now body.now ≡ None)
        (λ why. begin_refused core.now body.now ≡ Some why) }
{
    if core.is_alone() {
        return Err(OrderRefusal::NoNeighbour);
    }
    check_body(core, body)
}

/// Returns whether the name is in use in a group with this record: for a child that it has split
/// off, or for a transaction that it has decided or is locked in. An order under such a name has
/// no effect.
pub fn has_named(core: &Core, draw: Draw) -> bool
    ensures { result ≡ has_named core.now draw }
{
    is_born(core, draw) || is_decided(core, draw) || is_locked_in(&core.lock, draw)
}

/// Returns whether a group with this record has voted on the transaction.
pub fn has_voted(core: &Core, tx: Draw) -> bool
    ensures { result ≡ has_voted core.now tx }
{
    core.voted
        .as_slice()
        .iter()
        .any(|vote| same_draw(vote.0, tx))
}

fn is_born(core: &Core, draw: Draw) -> bool
    ensures { result ≡ list_any (λ child. same_draw child draw) core.now.born }
{
    core.born
        .as_slice()
        .iter()
        .any(|child| same_draw(*child, draw))
}

fn is_decided(core: &Core, draw: Draw) -> bool
    ensures { result ≡ list_any (λ decision. same_draw decision.0 draw) core.now.decided }
{
    core.decided
        .as_slice()
        .iter()
        .any(|decision| same_draw(decision.0, draw))
}

fn is_locked_in(lock: &Lock, draw: Draw) -> bool
    ensures { result ≡ is_locked_in (locked_in lock.now) draw }
{
    match locked_in(lock) {
        Some(tx) => same_draw(tx, draw),
        None => false,
    }
}
