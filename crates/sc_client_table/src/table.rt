//! The transition table of a client: the client after each input, and the mail that it sends.
//! Definitions and a law, no logic.
ghost use Rattle.sc_client_table.specs.table.Turns.{SendsInTurn};

/// States that a client has at most one unanswered request: whatever the input, it sends only the
/// request that waits, its numbers rise by one, and it takes a reply only for the number that
/// waits.
pub fn clients_send_in_turn()
    ensures { SendsInTurn }
{}
