//! The law of the results of orders: what the parts of a replica's table report of an order is what
//! the entry that ends it has decided, or why it was refused. Of the rows of a journal it is a
//! clause of `valid_journals_refuse_with_cause`. Definitions and laws; no code that runs.
ghost use Rattle.sc_law_refusal.specs.results.Results.{ReportsAreDecided};

/// Shows that an entry ends an order with one result, and what a replica's table reports of orders,
/// part by part. Of an entry that it executes a
/// replica reports only how the entry ends an order in the group that it meets: `Done` where the
/// entry is the order's own, the group carries such an order out alone, and its effect is Changed;
/// `Committed` and `Aborted` where it decides the transaction that the group coordinates for the
/// order, by an outcome of that kind; a refusal where it is the order's own and is refused for the
/// first cause that the group finds. Where a replica stops it reports of each order in its queue
/// that it does not lead. Of an order that it does not take it reports the first cause.
pub fn reports_are_decided()
    ensures { ReportsAreDecided }
{}
