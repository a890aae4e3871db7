//! Orders of the operator, and their results.
ghost use Rattle.std.specs.Prelude.{◌≡◌};
ghost use Rattle.sc_words.specs.commands.Order.{code_of, refusal_name};

use sc_base::{Draw, Dup, OutOfMemory, Same};
use std::alloc::Global;

/// An order to change a group. Orders are described in docs/SCENARIOS.md.
#[derive(Clone, Copy, PartialEq, Eq)]
pub enum Order {
    /// The node becomes a member of the group.
    Join { node: u16, group: Draw },
    /// The node stops being a member of the group.
    Leave { node: u16, group: Draw },
    /// The group's part from `at` on becomes a new group.
    Split { group: Draw, at: u32 },
    /// The group takes over its successor.
    Merge { group: Draw },
    /// The boundary between the group and its successor moves to `at`.
    Repart { group: Draw, at: u32 },
    /// The node leaves the group and joins its successor.
    Migrate { group: Draw, node: u16 },
}

/// An order with its number, counted from 1 over the whole scenario.
#[derive(Clone, Copy, PartialEq, Eq)]
pub struct OrderLine {
    pub number: u32,
    pub order: Order,
}

/// The reason why an order is refused.
#[derive(Clone, Copy, PartialEq, Eq)]
pub enum OrderRefusal {
    /// The node does not lead the group; it takes `hint` for the leader.
    NotLeader { hint: Option<u16> },
    /// The group is locked in the transaction `tx`.
    InTransaction { tx: Draw },
    /// The group is its own successor.
    NoNeighbour,
    /// The position cannot be a boundary.
    BadBoundary,
    /// The group would have `n` members, which are too many.
    TooManyMembers { n: u8 },
    /// The node is no member.
    NotMember,
    /// The group has one member.
    LastMember,
    /// The group has begun as many transactions as it may.
    TxLimit,
    /// The node is a member already.
    IsMember,
}

/// The result of an order that is reported to the desk.
#[derive(Clone, Copy, PartialEq, Eq)]
pub enum OrderResult {
    /// The group has carried the order out alone.
    Done,
    /// The transaction of the order was committed.
    Committed,
    /// The transaction of the order was aborted.
    Aborted,
    /// The order was refused.
    Refused(OrderRefusal),
}

impl OrderRefusal {
    /// Returns the refusal's number in the order in which refusals are tested, 1 to 9.
    pub fn code(&self) -> u8
        ensures { result ≡ code_of self.now }
    {
        match self {
            OrderRefusal::NotLeader { .. } => 1,
            OrderRefusal::InTransaction { .. } => 2,
            OrderRefusal::NoNeighbour => 3,
            OrderRefusal::BadBoundary => 4,
            OrderRefusal::TooManyMembers { .. } => 5,
            OrderRefusal::NotMember => 6,
            OrderRefusal::LastMember => 7,
            OrderRefusal::TxLimit => 8,
            OrderRefusal::IsMember => 9,
        }
    }

    /// Returns the refusal's printed name.
    pub fn name(&self) -> &'static [u8]
        ensures { result.now ≡ refusal_name self.now }
    {
        match self {
            OrderRefusal::NotLeader { .. } => b"not-leader",
            OrderRefusal::InTransaction { .. } => b"in-transaction",
            OrderRefusal::NoNeighbour => b"no-neighbour",
            OrderRefusal::BadBoundary => b"bad-boundary",
            OrderRefusal::TooManyMembers { .. } => b"too-many-members",
            OrderRefusal::NotMember => b"not-member",
            OrderRefusal::LastMember => b"last-member",
            OrderRefusal::TxLimit => b"tx-limit",
            OrderRefusal::IsMember => b"is-member",
        }
    }
}

impl Dup for Order {
    fn dup(&self, _alloc: Global) -> Result<Order, OutOfMemory>
        ensures { result ≡ Ok self.now }
    {
        Ok(*self)
    }
}

impl Dup for OrderLine {
    fn dup(&self, _alloc: Global) -> Result<OrderLine, OutOfMemory>
        ensures { result ≡ Ok self.now }
    {
        Ok(*self)
    }
}

impl Dup for OrderRefusal {
    fn dup(&self, _alloc: Global) -> Result<OrderRefusal, OutOfMemory>
        ensures { result ≡ Ok self.now }
    {
        Ok(*self)
    }
}

impl Dup for OrderResult {
    fn dup(&self, _alloc: Global) -> Result<OrderResult, OutOfMemory>
        ensures { result ≡ Ok self.now }
    {
        Ok(*self)
    }
}

impl Same for Order {
    fn is_same(&self, other: &Order) -> bool {
        self == other
    }
}

impl Same for OrderLine {
    fn is_same(&self, other: &OrderLine) -> bool {
        self == other
    }
}

impl Same for OrderRefusal {
    fn is_same(&self, other: &OrderRefusal) -> bool {
        self == other
    }
}

impl Same for OrderResult {
    fn is_same(&self, other: &OrderResult) -> bool {
        self == other
    }
}
