//! The orders that a policy can wish.
ghost use Rattle.std.specs.Prelude.{◌≡◌};
ghost use Rattle.sc_group_table.specs.policy.Wishes.{order_of};

use sc_base::Draw;
use sc_words::Order;

/// A policy's wish for a group, without a name for the group or transaction that it makes.
#[derive(Clone, Copy, Debug, PartialEq, Eq)]
pub enum Body0 {
    /// The group's part from `at` on becomes a group of its own.
    Split { at: u32 },
    /// The group takes over its successor.
    Merge,
    /// The boundary between the group and its successor moves to `at`.
    Repart { at: u32 },
}

impl Body0 {
    /// Returns the order to the group with this name.
    pub fn order(self, group: Draw) -> Order
        ensures { result ≡ order_of group self }
    {
        match self {
            Body0::Split { at } => Order::Split { group, at },
            Body0::Merge => Order::Merge { group },
            Body0::Repart { at } => Order::Repart { group, at },
        }
    }
}
