//! Which orders have their result reported.
ghost use Rattle.std.specs.Prelude.{◌≡◌};
ghost use Rattle.sc_group_table.specs.policy.Wishes.{is_reported};

/// Returns whether the result of the order with this number is reported to the desk: it is for
/// every order but those that a policy makes, whose number is 0.
pub fn is_reported(number: u32) -> bool
    ensures { result ≡ is_reported number }
{
    number > 0
}
