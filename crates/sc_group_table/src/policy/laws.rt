//! The law of the order in which a policy counts keys.
ghost use Rattle.sc_group_table.specs.policy.Laws.{KeysRiseFromTheStart};

/// States that the middle key is the middle one in the order in which the keys lie on the ring
/// from the group's start on.
pub fn keys_rise_from_the_start()
    ensures { KeysRiseFromTheStart }
{}
