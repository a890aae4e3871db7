//! What the lines say of a group.
ghost use Rattle.std.specs.Prelude.{◌≡◌};
ghost use Rattle.std.specs.Option.{option_map};
ghost use Rattle.sc_explain.specs.facts.Facts.{hold_of, record_of};

use sc_base::{Draw, Members, RingArc};
use sc_words::{Core, Lock, Route};

/// How a group's lock binds it, with the transaction alone.
#[derive(Clone, Copy)]
pub enum Hold {
    Free,
    Coordinating(Draw),
    Promised(Draw),
    Watching(Draw),
}

/// What a `record` line says of a group: its record by its own log.
#[derive(Clone, Copy)]
pub struct GroupRecord {
    /// The arc of the group on the circle.
    pub arc: RingArc,
    /// The group that took this one over, if one did.
    pub gone: Option<Draw>,
    /// How the lock binds the group.
    pub lock: Hold,
    /// The members of the group.
    pub members: Members,
    /// The name of the group.
    pub name: Draw,
    /// The group before it on the circle.
    pub pred: Draw,
    /// The group behind it on the circle.
    pub succ: Draw,
}

/// What a `group` line says of a group of the ring: its effective record, in short.
#[derive(Clone, Copy)]
pub struct RingGroup {
    /// The arc of the group on the circle.
    pub arc: RingArc,
    /// The name of the group.
    pub name: Draw,
    /// The number of pairs of the group.
    pub pairs: u64,
    /// The group before it on the circle.
    pub pred: Draw,
    /// The group behind it on the circle.
    pub succ: Draw,
}

/// Returns how a lock binds a group.
pub fn hold_of(lock: &Lock) -> Hold
    ensures { result ≡ hold_of lock.now }
{
    match lock {
        Lock::Free => Hold::Free,
        Lock::Coordinating { tx, .. } => Hold::Coordinating(*tx),
        Lock::Promised { tx, .. } => Hold::Promised(*tx),
        Lock::Watching { tx, .. } => Hold::Watching(*tx),
    }
}

fn gone_of(gone: &Option<Route>) -> Option<Draw>
    ensures { result ≡ option_map (λ into. into.group) gone.now }
{
    match gone {
        None => None,
        Some(into) => Some(into.group),
    }
}

/// Returns what a `record` line says of a group with this record.
pub fn record_of(core: &Core) -> GroupRecord
    ensures { result ≡ record_of core.now }
{
    GroupRecord {
        arc: core.arc,
        gone: gone_of(&core.gone),
        lock: hold_of(&core.lock),
        members: core.members,
        name: core.id,
        pred: core.pred.group,
        succ: core.succ.group,
    }
}
