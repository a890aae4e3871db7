//! One group through a calm journal: it follows its leader, each node takes the node that leads
//! for the leader, and what is asked and offered is in order. Definitions and laws; no function.
