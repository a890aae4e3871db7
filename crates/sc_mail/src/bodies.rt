//! The bodies of mail.
ghost use Rattle.std.specs.Prelude.{◌≡◌};
ghost use Rattle.sc_base.specs.Limits.{client_actor};

use sc_base::{
    Ballot, Boxed, Draw, Dup, MOST_NODES, Op, OutOfMemory, Reply, RingArc, Same, Sequence,
};
use sc_words::{
    Base, Command, Link, MemberSets, Offer, OrderResult, Outcome, Past, Report, Route, Vote, Watch,
};
use std::alloc::Global;

/// The actor number of the desk, the outside, to which the results of orders are sent. It is no
/// actor.
pub const DESK: u32 = 0;

/// Returns the actor number of a client: nodes have 1 to 32, and client C has 32 + C.
pub fn client_number(client: u16) -> u32
    ensures { result ≡ client_actor client }
{
    MOST_NODES + client as u32
}

/// The reports of a promise: what its node accepted last, ascending by slot.
pub type Reports = Sequence<Report<Command>>;

/// A node's answer to a client's request.
#[derive(Clone, PartialEq, Eq, Drop)]
pub enum AnswerBody {
    /// The operation is in the log, with this reply.
    Value(Reply),
    /// The node does not lead the group; it takes `hint` for the leader.
    NotLeader { hint: Option<u16> },
    /// The key is not in the group's arc.
    NotMine { arc: RingArc, succ: Link },
    /// The group was merged into another.
    Gone { into: Route },
    /// The client's later request `last` is in the log.
    Stale { last: u32 },
}

/// The body of a mail. `group` is the group that it is about.
#[derive(Clone, PartialEq, Eq, Drop)]
pub enum MailBody {
    /// A client's request to a replica of the group.
    Request {
        group: Draw,
        client: u16,
        seq: u32,
        op: Op,
    },
    /// A replica's answer to the client's request `seq`.
    Answer {
        group: Draw,
        seq: u32,
        answer: AnswerBody,
    },
    /// Phase 1a, for all slots not below `from_slot` (Paxos Made Simple, sections 2.2 and 3).
    Prepare {
        group: Draw,
        ballot: Ballot,
        from_slot: u32,
    },
    /// Phase 1b: a promise, with what its node accepted last.
    Promise {
        group: Draw,
        ballot: Ballot,
        reports: Reports,
    },
    /// Phase 2a: the request to accept the command at the slot.
    Accept {
        group: Draw,
        ballot: Ballot,
        slot: u32,
        command: Command,
    },
    /// Phase 2b: the node has accepted, in this ballot at this slot, the command of the Accept
    /// that was delivered in the row that sent this mail.
    Accepted {
        group: Draw,
        ballot: Ballot,
        slot: u32,
    },
    /// A prepare or an accept was ignored because of this promise.
    Nack {
        group: Draw,
        promised: Ballot,
    },
    /// The command of the slot was chosen (Paxos Made Simple, section 2.3).
    Learn {
        group: Draw,
        slot: u32,
        command: Command,
    },
    /// The sender lacks the slots from `from_slot` on; 0 where it has no replica of the group.
    Ask {
        group: Draw,
        from_slot: u32,
    },
    /// The state after `slot`, with the member sets of the slots that are open then.
    Install {
        group: Draw,
        slot: u32,
        base: Boxed<Base>,
        sets: MemberSets,
    },
    /// A coordinator's request to the participant to vote.
    TxPrepare {
        tx: Draw,
        offer: Boxed<Offer>,
    },
    /// The participant's vote, to the coordinator.
    TxVote {
        tx: Draw,
        coord: Draw,
        part: Draw,
        vote: Vote,
    },
    /// The coordinator's decision, to a party `part`.
    TxOutcome {
        tx: Draw,
        part: Draw,
        outcome: Outcome,
    },
    /// The sender does not lead the group that was asked; it takes `hint` for the leader.
    TxElsewhere {
        tx: Draw,
        coord: Draw,
        hint: Option<u16>,
    },
    /// A coordinator's request to the watcher to vote.
    TxWatch {
        tx: Draw,
        watch: Boxed<Watch>,
    },
    /// The watcher's vote, to the coordinator.
    TxWatched {
        tx: Draw,
        coord: Draw,
        part: Draw,
        vote: Past,
    },
    /// The result of an order, to the desk.
    Told {
        order: u32,
        result: OrderResult,
    },
}

/// A mail, with the actor numbers of its sender and receiver.
#[derive(Clone, PartialEq, Eq, Drop)]
pub struct Mail {
    pub from: u32,
    pub to: u32,
    pub body: MailBody,
}

impl Dup for AnswerBody {
    fn dup(&self, _alloc: Global) -> Result<AnswerBody, OutOfMemory> {
        Ok(self.clone()?)
    }
}

impl Dup for MailBody {
    fn dup(&self, _alloc: Global) -> Result<MailBody, OutOfMemory> {
        Ok(self.clone()?)
    }
}

impl Dup for Mail {
    fn dup(&self, _alloc: Global) -> Result<Mail, OutOfMemory> {
        Ok(self.clone()?)
    }
}

impl Same for AnswerBody {
    fn is_same(&self, other: &AnswerBody) -> bool {
        self == other
    }
}

impl Same for MailBody {
    #[tactic(auto, using(sc_base::proofs::EqualityLemmas::told, crate::proofs::Exact::body))]
    fn is_same(&self, other: &MailBody) -> bool {
        self == other
    }
}

impl Same for Mail {
    #[tactic(auto, using(sc_base::proofs::EqualityLemmas::told, crate::proofs::Exact::mail))]
    fn is_same(&self, other: &Mail) -> bool {
        self == other
    }
}
