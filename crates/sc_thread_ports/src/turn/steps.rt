//! The parts of a call that take several atomic steps.
ghost use Rattle.std.specs.Prelude.{◌≡◌, ◌+◌, ◌<◌, ◌^◌, true, false, [], ◌∷◌, length, Some};
ghost use Rattle.sc_thread_ports.specs.turn.Turn.{CanLeave, with_counted, GetsTurn};

use crate::turn::listed::Listed;
use crate::turn::plays::{Acquire, Append, Read};
use crate::turn::rule::{Turning, View};
use atomic_table::{Seat, Shared};
use std::hint;
use std::sync::Wait;
use std::sync::atomic::{AtomicU32, Ordering};

// The number of looks at the turn word before a thread falls asleep. A turn is held for less time
// than a sleep and a wake take.
const LOOKS: u32 = 2000;

// Returns whether the turn word was 0 at one of a few looks. No contract uses the answer: it only
// saves sleeps.
fn looks_free<T: Listed>(shared: &Shared<Option<T>, View<T::Entry>, (), Turning<T>>) -> bool
    requires { 0 < shared.now.table_id.words }
{
    for _ in 0..LOOKS {
        if shared.peek(0) == 0 {
            return true;
        }
        hint::spin_loop();
    }
    false
}

// Waits until the turn is free, and takes it. Between attempts it looks at the turn word for a
// short time, and then sleeps. The thread is counted as a sleeper before it falls asleep.
pub(crate) fn acquire<T: Listed, R: Wait>(
    rt: &R,
    shared: &Shared<Option<T>, View<T::Entry>, (), Turning<T>>,
    sleepers: &AtomicU32,
    place: &mut Seat<Option<T>, View<T::Entry>>,
)
    requires seated { (place.old.table_id ≡ shared.now.table_id) × (0 < shared.now.table_id.words) }
    requires out { (place.old.me.1 ≡ []) × (place.old.me.0.turn ≡ false) }
    ensures same { (place.new.table_id ≡ place.old.table_id) × (place.new.id ≡ place.old.id) }
    ensures got { GetsTurn T.entries place.old.me place.new.me }
{
    for _ in rt.forever() {
        if shared.compare_exchange::<Acquire<T>>(place, 0, 0, 1) == 0 {
            return;
        }
        if looks_free(shared) {
            continue;
        }
        sleepers.fetch_add(1, Ordering::SeqCst);
        shared.park(rt, 0, 1);
        sleepers.fetch_sub(1, Ordering::SeqCst);
    }
    unreachable!()
}

// Counts the row that the value in the slot has beyond the counted ones, if there is one.
pub(crate) fn count_row<T: Listed>(
    shared: &Shared<Option<T>, View<T::Entry>, (), Turning<T>>,
    place: &mut Seat<Option<T>, View<T::Entry>>,
    rows: u64,
)
    requires seated { (place.old.table_id ≡ shared.now.table_id) × (1 < shared.now.table_id.words) }
    requires turn { (place.old.me.0.turn ≡ true)
        × (place.old.me.0.live ≡ true)
        × (place.old.me.0.received ≡ []) }
    requires value { (x : T)
        × (place.old.me.1 ≡ (0, Some x) ∷ [])
        × CanLeave place.old.me.0 (T.entries x)
        × (rows ≡ length (T.entries x)) }
    requires fits { rows + 1 < 2 ^ 64 }
    ensures same { (place.new.table_id ≡ place.old.table_id) × (place.new.id ≡ place.old.id) }
    ensures counted { (x : T) → place.old.me.1 ≡ (0, Some x) ∷ [] →
        place.new.me ≡ (with_counted place.old.me.0 (T.entries x), place.old.me.1) }
{
    if shared.load::<Read<T>>(place, 1) == rows {
        return;
    }
    shared.fetch_add::<Append<T>>(place, 1, 1);
}
