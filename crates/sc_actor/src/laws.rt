//! Laws of journals, for the crates above.
ghost use Rattle.std.specs.Prelude.{◌≡◌, ℕ, List, [], ◌∷◌, ◌++◌, ◌+◌, ◌*◌, ◌≤◌, All, length, Some, None};
ghost use Rattle.sc_actor.specs.Counted.{row_bytes, journal_bytes};
ghost use Rattle.sc_actor.specs.declared.rows.Row.{Row};
ghost use Rattle.sc_actor.specs.declared.actors.Seat.{Seat};
ghost use Rattle.sc_actor.specs.declared.schedules.Line.{Line};
ghost use Rattle.sc_actor.specs.Mail.{mails, copies, counts_after};
ghost use Rattle.sc_actor.specs.Replay.{value, value_after};
ghost use Rattle.sc_actor.specs.System.{system, waiting, kth};
ghost use Rattle.sc_actor.specs.Walk.{IsLawful, IsNext};
ghost use Rattle.sc_actor.specs.Steps.{IsStep, IsUnderWay};

use crate::actors::Actor;

/// States what one more row adds to the mail sent, to the copies under way, and to the state of
/// each actor.
pub fn journals_grow<A: Actor>()
    ensures mails { (rows : List (Row A.Mail A.Order)) (row : Row A.Mail A.Order) →
        mails (rows ++ row ∷ []) ≡ mails rows ++ row.sent }
    ensures copies { (rows : List (Row A.Mail A.Order)) (row : Row A.Mail A.Order) →
        copies (rows ++ row ∷ []) ≡ counts_after (copies rows) row }
    ensures counted { (rows : List (Row A.Mail A.Order)) →
        length (copies rows) ≡ length (mails rows) }
    ensures value { (seat : Seat A) (rows : List (Row A.Mail A.Order)) (row : Row A.Mail A.Order) →
        value A.table seat (rows ++ row ∷ []) ≡ value_after A.table seat rows row }
{}

/// States that a lawful journal stays lawful with each row that may come next and with no other
/// row, and that each prefix of a lawful journal is lawful.
pub fn lawful_journals_grow<A: Actor>()
    ensures next { (words : ℕ → ℕ → ℕ × ℕ) (births : List (Seat A)) (lines : List (Line A.Order))
        (rows : List (Row A.Mail A.Order)) (row : Row A.Mail A.Order) →
        IsLawful (system A.table A.Mail.receiver words births) lines rows →
        IsNext (system A.table A.Mail.receiver words births) lines rows row →
        IsLawful (system A.table A.Mail.receiver words births) lines (rows ++ row ∷ []) }
    ensures last { (words : ℕ → ℕ → ℕ × ℕ) (births : List (Seat A)) (lines : List (Line A.Order))
        (rows : List (Row A.Mail A.Order)) (row : Row A.Mail A.Order) →
        IsLawful (system A.table A.Mail.receiver words births) lines (rows ++ row ∷ []) →
        IsNext (system A.table A.Mail.receiver words births) lines rows row }
    ensures first { (words : ℕ → ℕ → ℕ × ℕ) (births : List (Seat A)) (lines : List (Line A.Order))
        (rows more : List (Row A.Mail A.Order)) →
        IsLawful (system A.table A.Mail.receiver words births) lines (rows ++ more) →
        IsLawful (system A.table A.Mail.receiver words births) lines rows }
{}

/// States that each row that may come next is a step of an actor or of the network, and that each
/// pending mail was sent and has a copy under way.
pub fn next_rows_are_steps<A: Actor>()
    ensures step { (words : ℕ → ℕ → ℕ × ℕ) (births : List (Seat A)) (lines : List (Line A.Order))
        (rows : List (Row A.Mail A.Order)) (row : Row A.Mail A.Order) →
        IsNext (system A.table A.Mail.receiver words births) lines rows row →
        IsStep (system A.table A.Mail.receiver words births) rows row }
    ensures any { (words : ℕ → ℕ → ℕ × ℕ) (births : List (Seat A))
        (rows : List (Row A.Mail A.Order)) (k number : ℕ) →
        kth (waiting (system A.table A.Mail.receiver words births) rows None) k ≡ Some number →
        (mail : A.Mail)
        × IsUnderWay (system A.table A.Mail.receiver words births) rows number mail }
    ensures one { (words : ℕ → ℕ → ℕ × ℕ) (births : List (Seat A))
        (rows : List (Row A.Mail A.Order)) (who k number : ℕ) →
        kth (waiting (system A.table A.Mail.receiver words births) rows (Some who)) k
        ≡ Some number →
        (mail : A.Mail) × IsUnderWay (system A.table A.Mail.receiver words births) rows number mail
        × (A.Mail.receiver mail ≡ who) }
{}

/// States how large a journal is in counted bytes: no mail has more copies than there are rows, a
/// row counts at least 64 and a mail at least 256.
pub fn journals_are_counted<A: Actor>()
    ensures copies { (rows : List (Row A.Mail A.Order)) →
        All (λ count. count ≤ length rows) (copies rows) }
    ensures bytes { (rows : List (Row A.Mail A.Order)) →
        64 * length rows + 256 * length (mails rows) ≤ journal_bytes A.Mail.weighs rows }
    ensures next { (rows : List (Row A.Mail A.Order)) (row : Row A.Mail A.Order) →
        journal_bytes A.Mail.weighs (rows ++ row ∷ [])
        ≡ journal_bytes A.Mail.weighs rows + row_bytes A.Mail.weighs row }
{}
