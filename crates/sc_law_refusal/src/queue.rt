//! The law that a leader's queue has at most one request of each client, so no client is answered
//! `busy`. It is a law of the node's table and of the rows of a journal. Definitions and laws; no
//! code that runs.
ghost use Rattle.sc_law_refusal.specs.queue.OneCall.{QueuesKeepOneCall, StepsKeepOneCall};

/// Shows that a step of a node keeps at most one request of each client in the queue of each of its
/// replicas, whatever the input: a mail, a tick, with a policy or without, or an order.
pub fn steps_keep_one_call()
    ensures { StepsKeepOneCall }
{}

/// Shows that after any rows each replica of each node has at most one request of each client in
/// its queue, whether the rows are lawful or not.
pub fn queues_keep_one_call()
    ensures { QueuesKeepOneCall }
{}
