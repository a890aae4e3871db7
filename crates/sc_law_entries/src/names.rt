//! The law of names: every name that a node draws, for a child or a transaction, is drawn once, in
//! one row, for one group, and is new when it is drawn, whatever orders a journal has and policies
//! make. Definitions and laws; no code that runs.
ghost use Rattle.std.specs.Prelude.{◌≡◌, Some, None};
ghost use Rattle.sc_actor.specs.System.{no_words};
ghost use Rattle.sc_base.specs.Among.{Each};
ghost use Rattle.sc_meaning.specs.sound.Players.{Lawful};
ghost use Rattle.sc_scenario.specs.scenario.Groups.{lone_name};
ghost use Rattle.sc_meaning.specs.sound.Example.{four};
ghost use Rattle.sc_law_entries.specs.names.NameExample.{drawing_rows, drawing_scenario, example_name, second_name, third_name};
ghost use Rattle.sc_law_entries.specs.names.Owners.{owner_in};
ghost use Rattle.sc_law_entries.specs.names.Fresh.{BeginsUndrawn, DrawnNamesAreNew, NamesAreDrawn};
ghost use Rattle.sc_law_entries.specs.names.Naming.{AllowedNamesAreDrawn, LoggedNamesAreDrawn, MoreOwnersAllow};
ghost use Rattle.sc_law_entries.specs.names.NameLaws.{DrawnNamesAreOwned, NodesHaveNames, TakenOrdersAreAllowed, TakenWishesAreAllowed, WishesAreAtPositions, OrdersAreQueued, OtherNamesAreFree, OwnedNamesAreDrawn, OwnedNamesAreOfNodes, OwnersStay, RowsDrawOnce};

/// Shows that the names that a row draws, for an order or for what policies order, differ, had no
/// owner before the row, and are owned by the orders' groups from then on, whatever rows come
/// later. So one function, that of a whole journal, gives at each prefix of it the owner of each
/// name drawn so far. A name with an owner was drawn for it in one row, by a node of the scenario;
/// a name of no node has none.
pub fn names_have_one_owner()
    ensures stay { OwnersStay }
    ensures drawn { DrawnNamesAreOwned }
    ensures once { RowsDrawOnce }
    ensures rows { OwnedNamesAreDrawn }
    ensures nodes { OwnedNamesAreOfNodes }
    ensures others { OtherNamesAreFree }
{}

/// Shows that of a node's names those below its counter have owners, and those from the counter on
/// have none.
pub fn counters_part_names()
    ensures { NodesHaveNames }
{}

/// Shows that the command that a replica queues for an order that it takes is allowed in the log of
/// its group, where the order names a position of the ring, if it names one: the child of a split
/// or the transaction that is begun has a name that the group owns. The command is queued last, and
/// the pump follows. The command that a tick queues for what a policy orders is allowed in the same
/// sense, and what a policy orders names a position of the ring, if it names one.
pub fn orders_are_allowed()
    ensures allowed { TakenOrdersAreAllowed }
    ensures wishes { TakenWishesAreAllowed }
    ensures positions { WishesAreAtPositions }
    ensures queued { OrdersAreQueued }
{}

/// Shows that in a lawful journal, whose groups begin with no name that nodes draw, each name (of a
/// group, a child or a transaction) is of the scenario or was drawn, wherever it stands: in a mail,
/// in what a node or a client keeps, in a log, or in a group's birth record. A name that a row
/// draws was nowhere before it.
pub fn drawn_names_are_new()
    ensures drawn { NamesAreDrawn }
    ensures new { DrawnNamesAreNew }
{}

/// Shows that a Begin or a Split that is allowed in the log of a group, by the owners of names,
/// brings a name that a node drew for this group, so no group of a scenario has it, and no other
/// group's log. Where it stands in a log of a lawful journal, it was drawn in the journal's rows,
/// not later. What is allowed by the owners of some rows is allowed by those of more rows.
pub fn logs_name_what_was_drawn()
    ensures allowed { AllowedNamesAreDrawn }
    ensures logged { LoggedNamesAreDrawn }
    ensures more { MoreOwnersAllow }
{}

/// Shows a lawful journal to which the laws apply: a node gets two orders to split a group and one
/// to merge it. Both splits draw a name for the group, and the merge, which is refused, draws none.
pub fn a_journal_that_draws()
    ensures begins { Each BeginsUndrawn drawing_scenario.groups }
    ensures lawful { Lawful four no_words drawing_scenario drawing_rows }
    ensures first { owner_in four drawing_scenario drawing_rows example_name ≡ Some lone_name }
    ensures second { owner_in four drawing_scenario drawing_rows second_name ≡ Some lone_name }
    ensures third { owner_in four drawing_scenario drawing_rows third_name ≡ None }
{}
