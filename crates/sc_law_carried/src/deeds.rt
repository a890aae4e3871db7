//! What nodes and clients do that run for themselves, each with its own inputs, and whose mail
//! somebody carries. Definitions and laws; no code that runs.
ghost use Rattle.sc_law_carried.specs.deeds.HeldReplies.{PrintedRepliesAreDecided, PrintedRepliesComeFirst};
ghost use Rattle.sc_law_carried.specs.deeds.DeedLaws.{RowsAreDeeds, CarriedDeedsAreLawful, CarriedDeedsAreSound};

/// Shows that what machines do is a lawful journal, of which each prefix is sound, whatever the
/// network does, where the carrier keeps to `AreCarried`: each deed is of a node or a client of the
/// scenario, and sends what its table gives for what its own deeds made of it; a mail comes to the
/// actor that it names, as it was sent before; a client starts once; and an order is given to a
/// node, names a node that exists and a position of the ring, and has a number from 1 on. Mail may
/// come late, in any order, often, or never. The rows are the deeds and repeats of the network, and
/// the schedule is read off them. A well formed scenario may have any number of requests.
pub fn carried_deeds_are_sound()
    ensures rows { RowsAreDeeds }
    ensures lawful { CarriedDeedsAreLawful }
    ensures sound { CarriedDeedsAreSound }
{}

/// Shows that a reply may be put where a client's process prints it, although the row of the step
/// that takes it is made only when the client's next request is known. Its request was decided by
/// the rows of the deeds before that place, with that reply, and it stands in the history before
/// each request that a later deed is the first to send.
pub fn printed_replies_keep_real_time()
    ensures decided { PrintedRepliesAreDecided }
    ensures first { PrintedRepliesComeFirst }
{}
