//! Ticks heal a store without orders, whatever the network did before. Definitions and laws, no
//! logic.
//!
//! A schedule may lose, repeat and delay mail, let clocks tick and crash less than half of each
//! group. Behind it, one tick of each living node, each followed by a `settle` line, leaves every
//! replica that runs settled and idle. From there on a client that is ticked or started, with a
//! `settle` line behind it, has all its replies, or its waiting request was last sent to a node
//! that crashed.
#![tactic(auto)]

ghost use Rattle.sc_live_healed.specs.HealedStores.{HealedStoresAnswer};

/// Proves that ticks heal a store: let the lines of a valid scenario without policy be any lines
/// but orders, a `settle` line, turns of nodes, each living node among them, and turns of clients,
/// a turn being a tick or a start with a `settle` line behind it; and let more than half of each
/// group's members live. In each whole lawful journal of at most 2^28 rows in which no line was
/// cut off, behind the turns of nodes, and behind each turn of a client, each replica that runs at
/// a living node is settled and has nothing in flight, ready or queued. Each client that its turn
/// ticks or starts has all its replies behind it, or the node that it asked last has crashed; and
/// where no line crashes a node, it has all its replies.
pub fn healed_stores_answer()
    ensures { HealedStoresAnswer }
{}
