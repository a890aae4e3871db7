//! The law of the steps of storms.
ghost use Rattle.std.specs.Prelude.{ℕ, List};
ghost use Rattle.sc_actor.specs.declared.actors.Seat.{Seat};
ghost use Rattle.sc_actor.specs.declared.rows.Row.{Row};
ghost use Rattle.sc_actor.specs.System.{system};
ghost use Rattle.sc_thread_ledger.specs.declared.spots.Look.{Look};
ghost use Rattle.sc_thread_pool.specs.storm.Laws.{MakesItsRow};

use sc_actor::Actor;

/// Shows that the line of a step's deed makes the row that the walk of the schedule has for this
/// step, and none where the walk has none.
pub fn deeds_are_rows_of_the_walk<A: Actor>()
    ensures { (draws : ℕ → ℕ → ℕ × ℕ) (births : List (Seat A)) (actors : ℕ)
        (rows : List (Row A.Mail A.Order)) (look : Look) (words : ℕ × ℕ) →
        MakesItsRow (system A.table A.Mail.receiver draws births) actors rows look words }
{}
