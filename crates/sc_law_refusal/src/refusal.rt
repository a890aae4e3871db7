//! The law of refusals: each answer by which a replica turns a client away has its cause in the
//! state that was executed when the answer was made; a replica that runs takes requests; each
//! queued GiveUp has its cause; and a client asks in turn. Laws of the tables of a replica and of a
//! node, and of every lawful journal. Definitions and laws; no code that runs.
ghost use Rattle.sc_law_refusal.specs.refusal.Causes.{RunningReplicasTakeRequests, StepsHaveCauses};
ghost use Rattle.sc_law_refusal.specs.refusal.Journals.{ValidJournalsRefuseWithCause};
ghost use Rattle.sc_law_refusal.specs.refusal.NodeCauses.{NodesHaveCauses};

use crate::queue::queues_keep_one_call;

/// Shows why a replica answers what it does in a step. The step executes the command that its input
/// teaches and the commands that it counted, or takes over a state. Its answers are, in order, one
/// to each call that it executed as counted, by the effect on the state that the call met (none
/// where the call has to wait and goes back to the queue), and then those to calls that it did not
/// execute. Each answer is of the replica's own group, at the client of a call that the replica
/// held or that its input brings.
///
/// To an executed call NotMine comes where the arc lacks the key in the state that the call met,
/// and no transaction keeps calls waiting; Gone where the group is gone; Stale where its table
/// holds a greater number of the client, which the answer carries. To another call NotMine and Gone
/// come for the same reasons in the state that the step leaves, and NotLeader where the replica
/// does not run after the step, or was stopped by a state that it took over and elected anew.
///
/// After a step at most one more GiveUp of a transaction is queued than before: a tick of a settled
/// coordinator that has counted its ticks queues it, where none was queued, in flight or ready; or
/// it goes back from a flight whose slot another command took.
pub fn refusals_have_causes()
    ensures { StepsHaveCauses }
{}

/// Shows that a node's whole step has causes, whether the node takes a mail, ticks with all its
/// replicas, with a policy or without, or takes an order. Its mail is what the replicas that take
/// the input send in their steps, one behind another. Where the node has no replica of the group
/// that a request names, it answers the client in the group's name that it does not lead, and names
/// no other node. Where a request is brought to a replica that runs, no mail is an answer
/// NotLeader. Each GiveUp that a replica has queued after the step has its cause at the replica of
/// that group before it.
pub fn nodes_have_causes()
    ensures { NodesHaveCauses }
{}

/// Shows that a replica that runs never answers NotLeader in the step that brings it a request.
pub fn running_replicas_take_requests()
    ensures { RunningReplicasTakeRequests }
{}

/// Shows that in every lawful journal of a valid scenario each row has causes: each answer has its
/// cause, and a row that brings a request to a replica that runs sends no answer NotLeader. A
/// coordinator queues a new GiveUp only at a tick that is at least the `patience`-th of its
/// leadership under the lock of that transaction, as the rows of its node show; besides, a GiveUp
/// may go back to the queue from a flight. Wherever a GiveUp stands after some of the rows, at a
/// replica, in mail or in a log, a replica of its group has so queued it at a tick in one of them.
/// Each result of an order that a row reports was decided by an entry of a group's log before the
/// row, or is a refusal of the row with its cause: the order is not taken as it is given, or it
/// waited at a replica whose leadership ended. A queue has at most one request of each client. A
/// client sends its requests one after another, each again while it waits, and ends only with the
/// last.
pub fn valid_journals_refuse_with_cause()
    ensures { ValidJournalsRefuseWithCause }
{
    queues_keep_one_call();
}
