//! The proposals in flight.
ghost use Rattle.std.specs.Prelude.{◌≡◌, ◌<◌, Some, None, MatchOption, find, length, position, ◌==◌, slice_get, vec_len};
ghost use Rattle.std.specs.Option.{option_copied};
ghost use Rattle.sc_words.specs.paxos.Leaders.{flight_at, without_flight};
ghost use Rattle.sc_words.specs.paxos.Votes.{with_voters};

use sc_base::Members;
use sc_words::Flight;

/// Returns the index of the proposal in flight at a slot, if there is one.
pub(crate) fn place_of<V>(flights: &[Flight<V>], slot: u32) -> Option<usize>
    ensures { result ≡ position (λ flight. flight.slot == slot) flights.now }
{
    flights.iter().position(|flight| flight.slot == slot)
}

/// Returns the proposal in flight at a slot, if there is one.
pub(crate) fn flight_at<V>(flights: &[Flight<V>], slot: u32) -> Option<&Flight<V>>
    ensures { option_copied result ≡ flight_at slot flights.now }
{
    flights.iter().find(|flight| flight.slot == slot)
}

/// Removes the proposal in flight at a slot, and returns it.
pub(crate) fn take_out<V>(flights: &mut Vec<Flight<V>>, slot: u32) -> Option<Flight<V>>
    ensures value { result ≡ flight_at slot flights.old.items }
    ensures after { flights.new.items ≡ without_flight slot flights.old.items }
{
    match place_of(flights.as_slice(), slot) {
        Some(at) => Some(flights.remove(at)),
        None => None,
    }
}

/// Replaces the voters of the proposal in flight at a slot, if there is one.
pub(crate) fn set_voters<V>(flights: &mut Vec<Flight<V>>, slot: u32, voters: Option<Members>)
    ensures { flights.new.items ≡ with_voters slot voters flights.old.items }
{
    if let Some(at) = place_of(flights.as_slice(), slot) {
        flights[at].voters = voters;
    }
}
