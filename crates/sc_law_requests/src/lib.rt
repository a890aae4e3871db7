//! A client whose requests come one by one makes the steps of one that has them all. A law, no
//! logic.
#![tactic(auto)]

ghost use Rattle.sc_law_requests.specs.MoreRequests.{SameWithMoreRequests, StepsAreSame};

/// States that a client's steps are the same with more requests behind its own, up to the step
/// that takes the reply to the last of its own: the same mail is sent, and the client is the same
/// but for its requests.
pub fn steps_are_same_with_more_requests()
    ensures step { StepsAreSame }
    ensures birth { SameWithMoreRequests }
{}
