//! Laws of journals whose deliveries come in order, and of how many deliveries there can be. They
//! hold for any actors. Definitions and laws: no function here has a body.
//!
//! A schedule is plain where each line starts an actor, or only delivers. It is calm where
//! lines may give orders besides. In a journal of such a schedule each actor takes its mail in
//! ascending order of number, whatever the line and the number of workers. If each delivery lowers
//! what is owed by at least one, what is owed at birth bounds the number of all deliveries. So a
//! line of deliveries with room for that number ends with no mail pending. With orders, and a line
//! of deliveries between each order and every other order or `go` line, each such line has to have
//! room for what is owed in quiet journals and what one order raises.
#![tactic(auto)]

ghost use Rattle.std.specs.List.{flat_map};
ghost use Rattle.std.specs.Prelude.{◌≡◌, ℕ, ◌+◌, ◌*◌, ◌≤◌, List, [], ◌∷◌, ◌++◌, length, drop, Bool, true, false, Some, slice_get};
ghost use Rattle.sc_base.specs.Among.{Each};
ghost use Rattle.sc_actor.specs.declared.actors.Seat.{Seat};
ghost use Rattle.sc_actor.specs.declared.rows.Row.{Row};
ghost use Rattle.sc_actor.specs.declared.rows.Event.TheVariants.{Deliver};
ghost use Rattle.sc_actor.specs.declared.schedules.Line.{Line};
ghost use Rattle.sc_actor.specs.declared.schedules.Line.TheVariants.{Settle};
ghost use Rattle.sc_actor.specs.Mail.{mails, numbered};
ghost use Rattle.sc_actor.specs.System.{system, are_apart};
ghost use Rattle.sc_actor.specs.Walk.{IsLawful, IsWhole, is_quiet, lowest, unsettled};
ghost use Rattle.sc_live_orderly.specs.OrderedRows.{IsPlainLine, IsCalmLine, IsOrderly, IsCalmRow, IsTidy, rest, mail_for, is_born, taken, deliveries, goes, orders};
ghost use Rattle.sc_live_orderly.specs.Potential.{Owing, Lowers, SendsToActors, HasRoom, owed, owed_at_birth};
ghost use Rattle.sc_live_orderly.specs.Turns.{Turn, HasTurns, TakesLowest, pending_mail, turn_lines};
ghost use Rattle.sc_live_orderly.specs.OrdersInQuiet.{AreSpaced, Nothing, AreInTime, GiveAllowedOrders, LinesGiveAllowedOrders, orders_given, IsMeasure};

use sc_actor::Actor;

/// Proves that in a lawful journal of a plain schedule each row comes in order: an actor goes that
/// has not gone, or an actor takes its pending mail with the lowest number. No mail has two copies
/// under way, and no actor crashes.
pub fn plain_journals_are_orderly<A: Actor>()
    ensures row { (words : ℕ → ℕ → ℕ × ℕ) (births : List (Seat A)) (lines : List (Line A.Order))
        (rows : List (Row A.Mail A.Order)) (row : Row A.Mail A.Order) →
        Each IsPlainLine lines →
        IsLawful (system A.table A.Mail.receiver words births) lines (rows ++ row ∷ []) →
        IsOrderly (system A.table A.Mail.receiver words births) rows row }
    ensures tidy { (words : ℕ → ℕ → ℕ × ℕ) (births : List (Seat A)) (lines : List (Line A.Order))
        (rows : List (Row A.Mail A.Order)) →
        Each IsPlainLine lines →
        IsLawful (system A.table A.Mail.receiver words births) lines rows → IsTidy rows }
{}

/// Proves that in a lawful journal of a calm schedule each row gives an order, or an actor goes
/// that has not gone, or an actor takes its pending mail with the lowest number. No mail has two
/// copies under way, and no actor crashes.
pub fn calm_journals_are_orderly<A: Actor>()
    ensures row { (words : ℕ → ℕ → ℕ × ℕ) (births : List (Seat A)) (lines : List (Line A.Order))
        (rows : List (Row A.Mail A.Order)) (row : Row A.Mail A.Order) →
        Each IsCalmLine lines →
        IsLawful (system A.table A.Mail.receiver words births) lines (rows ++ row ∷ []) →
        IsCalmRow (system A.table A.Mail.receiver words births) rows row }
    ensures tidy { (words : ℕ → ℕ → ℕ × ℕ) (births : List (Seat A)) (lines : List (Line A.Order))
        (rows : List (Row A.Mail A.Order)) →
        Each IsCalmLine lines →
        IsLawful (system A.table A.Mail.receiver words births) lines rows → IsTidy rows }
{}

/// Proves what a row of a lawful journal of a calm schedule leaves of an actor's untaken mail: the
/// first one is gone where the row delivers to the actor, and what the row sends to the actor is
/// appended. A journal is quiet exactly where no actor has untaken mail.
pub fn mail_is_taken_in_order<A: Actor>()
    ensures rest { (words : ℕ → ℕ → ℕ × ℕ) (births : List (Seat A)) (lines : List (Line A.Order))
        (rows : List (Row A.Mail A.Order)) (row : Row A.Mail A.Order) (who : ℕ) →
        let s = system A.table A.Mail.receiver words births in
        Each IsCalmLine lines → IsLawful s lines (rows ++ row ∷ []) →
        rest s (rows ++ row ∷ []) who
        ≡ drop (taken who row) (rest s rows who) ++ mail_for s who row.sent }
    ensures first { (words : ℕ → ℕ → ℕ × ℕ) (births : List (Seat A)) (lines : List (Line A.Order))
        (rows : List (Row A.Mail A.Order)) (row : Row A.Mail A.Order) (number : ℕ) →
        let s = system A.table A.Mail.receiver words births in
        Each IsCalmLine lines → IsLawful s lines (rows ++ row ∷ []) →
        row.event ≡ Deliver number →
        (mail : A.Mail) × (numbered (mails rows) number ≡ Some mail)
        × (A.Mail.receiver mail ≡ row.who) × (slice_get (rest s rows row.who) 0 ≡ Some mail) }
    ensures quiet { (words : ℕ → ℕ → ℕ × ℕ) (births : List (Seat A)) (lines : List (Line A.Order))
        (rows : List (Row A.Mail A.Order)) (who : ℕ) →
        let s = system A.table A.Mail.receiver words births in
        Each IsCalmLine lines → IsLawful s lines rows → is_quiet s rows ≡ true →
        is_born s who ≡ true → rest s rows who ≡ [] }
    ensures empty { (words : ℕ → ℕ → ℕ × ℕ) (births : List (Seat A)) (lines : List (Line A.Order))
        (rows : List (Row A.Mail A.Order)) →
        let s = system A.table A.Mail.receiver words births in
        Each IsCalmLine lines → IsLawful s lines rows →
        ((who : ℕ) → is_born s who ≡ true → rest s rows who ≡ []) → is_quiet s rows ≡ true }
{}

/// Proves a bound for plain schedules, where in each lawful journal each delivery lowers what is
/// owed by at least one, and no actor that goes raises it: the deliveries made and what is still
/// owed are together at most what was owed at birth. So no line of deliveries with room for that
/// is cut off, and the number of mails is at most the deliveries made and what is still owed. The
/// number of rows is that of the deliveries and of the actors that have gone.
pub fn deliveries_are_owed<A: Actor>()
    ensures deliveries { (words : ℕ → ℕ → ℕ × ℕ) (births : List (Seat A))
        (lines : List (Line A.Order)) (owing : Owing A A.Mail)
        (journal : List (Row A.Mail A.Order)) →
        let s = system A.table A.Mail.receiver words births in
        are_apart births ≡ true → Each IsPlainLine lines → Lowers s owing lines →
        IsLawful s lines journal →
        deliveries journal + owed s owing journal ≤ owed_at_birth s owing }
    ensures settled { (words : ℕ → ℕ → ℕ × ℕ) (births : List (Seat A))
        (lines : List (Line A.Order)) (owing : Owing A A.Mail)
        (journal : List (Row A.Mail A.Order)) →
        let s = system A.table A.Mail.receiver words births in
        are_apart births ≡ true → Each IsPlainLine lines → Lowers s owing lines →
        Each (HasRoom (owed_at_birth s owing)) lines → IsLawful s lines journal →
        unsettled s lines journal ≡ false }
    ensures mails { (words : ℕ → ℕ → ℕ × ℕ) (births : List (Seat A))
        (lines : List (Line A.Order)) (owing : Owing A A.Mail)
        (journal : List (Row A.Mail A.Order)) →
        let s = system A.table A.Mail.receiver words births in
        are_apart births ≡ true → Each IsPlainLine lines → Lowers s owing lines →
        SendsToActors s lines → IsLawful s lines journal →
        length (mails journal) ≤ deliveries journal + owed s owing journal }
    ensures rows { (words : ℕ → ℕ → ℕ × ℕ) (births : List (Seat A))
        (lines : List (Line A.Order)) (journal : List (Row A.Mail A.Order)) →
        let s = system A.table A.Mail.receiver words births in
        are_apart births ≡ true → Each IsPlainLine lines → IsLawful s lines journal →
        (length journal ≡ deliveries journal + goes journal) × (goes journal ≤ length births) }
{}

/// Proves a bound for calm schedules with a line of deliveries between each order and every other
/// order or `go` line. What is owed is any number that the rows determine, as `IsMeasure` says:
/// each delivery lowers it by at least one, an order raises it by at most `raise`, and it is at
/// most `still` in quiet journals. `IsMeasure` asks this only of lawful journals with at most
/// `most` deliveries, where `most` is at least `still` and `raise` for each order given. If each
/// line of deliveries has room for `still + raise`, each order is given in a quiet journal, each
/// actor goes where no order is under way, and no line is cut off. The deliveries made and what is
/// still owed are together at most `still` and `raise` for each order. A journal gives no more
/// orders than its lines, and no others.
pub fn orders_begin_in_quiet<A: Actor>()
    ensures timely { (words : ℕ → ℕ → ℕ × ℕ) (births : List (Seat A))
        (lines : List (Line A.Order)) (most : ℕ)
        (owed_after : List (Row A.Mail A.Order) → ℕ) (still raise : ℕ)
        (journal : List (Row A.Mail A.Order)) →
        let s = system A.table A.Mail.receiver words births in
        IsMeasure s lines most owed_after still raise → AreSpaced Nothing lines →
        Each (HasRoom (still + raise)) lines → still + orders_given lines * raise ≤ most →
        IsLawful s lines journal → AreInTime s journal }
    ensures settled { (words : ℕ → ℕ → ℕ × ℕ) (births : List (Seat A))
        (lines : List (Line A.Order)) (most : ℕ)
        (owed_after : List (Row A.Mail A.Order) → ℕ) (still raise : ℕ)
        (journal : List (Row A.Mail A.Order)) →
        let s = system A.table A.Mail.receiver words births in
        IsMeasure s lines most owed_after still raise → AreSpaced Nothing lines →
        Each (HasRoom (still + raise)) lines → still + orders_given lines * raise ≤ most →
        IsLawful s lines journal → unsettled s lines journal ≡ false }
    ensures deliveries { (words : ℕ → ℕ → ℕ × ℕ) (births : List (Seat A))
        (lines : List (Line A.Order)) (most : ℕ)
        (owed_after : List (Row A.Mail A.Order) → ℕ) (still raise : ℕ)
        (journal : List (Row A.Mail A.Order)) →
        let s = system A.table A.Mail.receiver words births in
        IsMeasure s lines most owed_after still raise → AreSpaced Nothing lines →
        Each (HasRoom (still + raise)) lines → still + orders_given lines * raise ≤ most →
        IsLawful s lines journal →
        deliveries journal + owed_after journal ≤ still + orders journal * raise }
    ensures rows { (words : ℕ → ℕ → ℕ × ℕ) (births : List (Seat A))
        (journal : List (Row A.Mail A.Order)) →
        let s = system A.table A.Mail.receiver words births in
        are_apart births ≡ true → AreInTime s journal →
        (length journal ≡ deliveries journal + goes journal + orders journal)
        × (goes journal ≤ length births) }
    ensures few { (words : ℕ → ℕ → ℕ × ℕ) (births : List (Seat A))
        (lines : List (Line A.Order)) (journal : List (Row A.Mail A.Order)) →
        let s = system A.table A.Mail.receiver words births in
        Each IsCalmLine lines → IsLawful s lines journal → orders journal ≤ orders_given lines }
    ensures told_so { (words : ℕ → ℕ → ℕ × ℕ) (births : List (Seat A))
        (lines : List (Line A.Order)) (allowed : ℕ → A.Order → Bool)
        (journal : List (Row A.Mail A.Order)) →
        let s = system A.table A.Mail.receiver words births in
        Each IsCalmLine lines → LinesGiveAllowedOrders allowed lines → IsLawful s lines journal →
        GiveAllowedOrders allowed journal }
{}

/// Proves that where a schedule ends with a `settle` line and then turns, each a tick or a start of
/// an actor with a `settle` line behind it, and no line of a whole lawful journal was cut off, the
/// journal is made by these turns from a prefix with no mail pending on. In a turn each delivery
/// takes the first of the pending mail, the lowest number first, and what it sends to actors that
/// may get mail is pending behind the others. This holds whatever the lines before did.
pub fn turns_are_taken<A: Actor>()
    ensures taken { (words : ℕ → ℕ → ℕ × ℕ) (births : List (Seat A)) (lines : List (Line A.Order))
        (most : ℕ) (turns : List Turn) (journal : List (Row A.Mail A.Order)) →
        let s = system A.table A.Mail.receiver words births in
        let schedule = lines ++ Settle most ∷ flat_map turn_lines turns in
        IsLawful s schedule journal → IsWhole s schedule journal →
        unsettled s schedule journal ≡ false →
        (before : List (Row A.Mail A.Order)) × HasTurns s before turns journal }
    ensures lowest { (words : ℕ → ℕ → ℕ × ℕ) (births : List (Seat A))
        (rows : List (Row A.Mail A.Order)) (row : Row A.Mail A.Order) →
        let s = system A.table A.Mail.receiver words births in
        lowest s rows ≡ Some row → TakesLowest s rows row }
    ensures quiet { (words : ℕ → ℕ → ℕ × ℕ) (births : List (Seat A))
        (rows : List (Row A.Mail A.Order)) →
        let s = system A.table A.Mail.receiver words births in
        is_quiet s rows ≡ true → pending_mail s rows ≡ [] }
{}
