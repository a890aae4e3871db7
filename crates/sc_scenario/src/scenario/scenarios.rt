//! The scenario, which is a run to be made.
use sc_base::{Op, Sequence};
use sc_words::{Base, OrderLine};

/// The requests of one client, in the order in which it sends them.
#[derive(Drop)]
pub struct Asks {
    pub client: u16,
    pub ops: Sequence<Op>,
}

/// A line of the schedule. `who` is an actor's number, and `k` the place of a mail among the
/// actor's pending mail, counted from 1.
#[derive(Drop)]
pub enum SchedLine {
    /// The client starts.
    Go { client: u16 },
    /// The k-th pending mail of the actor is delivered.
    Deliver { who: u32, k: u32 },
    /// The k-th pending mail of the actor is lost.
    Drop { who: u32, k: u32 },
    /// One more copy of the mail with this number is pending.
    Again { mail: u32 },
    /// The actor's clock ticks.
    Tick { who: u32 },
    /// The node stops for good.
    Crash { node: u16 },
    /// The node gets an order.
    Told { node: u16, line: OrderLine },
    /// The pending mail with the lowest number is delivered, at most `most` times.
    Settle { most: u32 },
    /// Any actor's first pending mail is delivered, at most `most` times, by `workers` threads.
    Free { most: u32, workers: u32 },
    /// `most` steps of the storm with this number are made.
    Storm { number: u64, most: u32 },
}

/// The groups at the start of a run.
pub type GroupList = Sequence<Base>;

/// The requests of each client.
pub type ClientList = Sequence<Asks>;

/// The lines of a schedule, in order.
pub type Schedule = Sequence<SchedLine>;

/// A run to be made: nodes 1 to `nodes`, groups, clients and a schedule.
#[derive(Drop)]
pub struct Scenario {
    pub nodes: u16,
    pub groups: GroupList,
    /// Whether there is a policy, by which leaders order the reshaping of their groups.
    pub policy: bool,
    pub clients: ClientList,
    pub lines: Schedule,
    /// Whether the report only counts the answered requests.
    pub brief: bool,
    pub version: u8,
}
