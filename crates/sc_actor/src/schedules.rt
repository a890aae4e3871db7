//! The lines of a schedule, and how a run of one ended.

/// A line of a schedule. Actors are named by their numbers. A mail is named by its number, or by
/// `k`: its place, from 1, among an actor's pending mail.
#[derive(Drop)]
pub enum Line<O> {
    /// Starts the client.
    Go { who: u32 },
    /// Delivers the k-th pending mail of the actor.
    Deliver { who: u32, k: u32 },
    /// Loses the k-th pending mail of the actor.
    Drop { who: u32, k: u32 },
    /// Makes one more copy of the mail with this number.
    Again { mail: u32 },
    /// Lets the actor's clock tick.
    Tick { who: u32 },
    /// Stops the node for good.
    Crash { who: u32 },
    /// Gives the node an order.
    Told { who: u32, order: O },
    /// Makes at most `most` deliveries, each of the pending mail with the lowest number of all.
    Settle { most: u32 },
    /// Makes at most `most` deliveries, each of the first pending mail of any actor, by `workers`
    /// threads.
    Free { most: u32, workers: u32 },
    /// Makes `most` steps of the storm that `number` gives: each step loses, repeats or delivers a
    /// mail or lets an actor's clock tick, or does nothing.
    Storm { number: u64, most: u32 },
}

/// How the run of a schedule ended.
#[derive(Clone, Copy, Debug, PartialEq, Eq)]
pub enum Played {
    /// The schedule was played to its end. `unsettled`: a `Settle` or `Free` line ended with mail
    /// pending. `quiet`: no mail is pending now. `skipped`: the number of lines that made no row.
    Ended {
        unsettled: bool,
        quiet: bool,
        skipped: u64,
    },
    /// The next row would exceed the limit on the journal's counted bytes.
    Full,
    /// The run ended because it was out of memory.
    OutOfMemory,
}
