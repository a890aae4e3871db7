//! Lemmas that several laws cite: about either of two values, ballots, the queues of a replica, and
//! what holds of a replica and its mail through the rows of its table. Definitions and proofs; no
//! code that runs.
#![tactic(auto)]
