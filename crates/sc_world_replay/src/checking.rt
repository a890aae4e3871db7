//! The check of given rows against a schedule, line by line.
ghost use Rattle.std.specs.Prelude.{◌≡◌, ◌<◌, ◌≤◌, ◌+◌, ◌^◌, ◌-◌, ◌%◌, [], ◌∷◌, true, ℕ, length, slice_get, Some, None, IfOk, IfSome, OnOk, IsOk, MatchBool};
ghost use Rattle.sc_actor.specs.Mail.{mails};
ghost use Rattle.sc_actor.specs.declared.rows.Row.{Row};
ghost use Rattle.sc_actor.specs.System.{numbers_of};
ghost use Rattle.sc_actor.specs.Walk.{Once, Storms, storm_steps, tasks_of};
ghost use Rattle.sc_texts.specs.chance.KeyStream.{two_words};
ghost use Rattle.sc_world_replay.specs.Checks.{IsTaking, DidWithRow, Misses, IsChecked};
ghost use Rattle.sc_world_replay.specs.Actions.{can_act, chosen_action, line_action, storm_action};
ghost use Rattle.sc_world_replay.specs.Moves.{rules_of, many};
ghost use Rattle.sc_world_replay.specs.Stages.{IsUpToDate};

use crate::actions::{first_action, line_action, lowest_action, storm_action};
use crate::appending::append;
use crate::checked::Checked;
use crate::making::make_row;
use crate::pending::is_quiet;
use crate::stages::{Action, Stage};
use sc_actor::{Actor, Line, Parcel, Row};
use sc_base::{OutOfMemory, Same};
use sc_texts::Chance;
use std::alloc::Global;

// Does the action, and appends the row if it is the one that the action makes. Returns whether it
// is.
fn take_row<A: Actor>(
    alloc: Global,
    stage: &mut Stage<A, A::Mail, A::Order>,
    action: Action<A::Order>,
    row: &Row<A::Mail, A::Order>,
) -> Result<bool, OutOfMemory>
where
    A::Mail: Same,
    A::Order: Same,
    requires kept { IsUpToDate A.Mail.receiver stage.old }
    requires can { can_act (numbers_of stage.old.seats.items) action ≡ true }
    requires rows { length stage.old.rows + 1 < 2 ^ 31 }
    requires mails { length (mails stage.old.rows) + length row.now.sent < 2 ^ 31 }
    ensures took { IfOk result (λ same. MatchBool same
        (DidWithRow (rules_of A.table A.Mail.receiver) stage.old stage.new action row.now)
        (Misses (rules_of A.table A.Mail.receiver) stage.old stage.new action row.now)) }
    ensures skipped { OnOk result (stage.new.skipped ≡ stage.old.skipped) }
{
    let made = make_row(alloc, &mut stage.seats, &stage.mails, action)?;
    if !made.is_same(row) {
        return Ok(false);
    }
    append(alloc, stage, made)?;
    Ok(true)
}

// Checks a line of one row.
fn check_once<A: Actor>(
    alloc: Global,
    stage: &mut Stage<A, A::Mail, A::Order>,
    line: &Line<A::Order>,
    rows: &[Row<A::Mail, A::Order>],
) -> Result<Checked, OutOfMemory>
where
    A::Mail: Same,
    A::Order: Same,
    requires taking { IsTaking A.Mail.receiver stage.old rows.now }
    requires room { stage.old.skipped < 2 ^ 64 - 1 }
    ensures checked { IfOk result
        (λ checked.
        IsChecked (rules_of A.table A.Mail.receiver) stage.old (Once line.now ∷ []) stage.new
        rows.now checked) }
    ensures skipped { OnOk result (stage.new.skipped ≤ stage.old.skipped + 1) }
    ensures none { ((who : ℕ) (order : A.Order) → line.now ≡ Line.Told who order → ⊥) →
        line_action A.Mail.receiver (numbers_of stage.old.seats.items) stage.old.rows line.now ≡ None →
        IsOk result }
    ensures ended { ((who : ℕ) (order : A.Order) → line.now ≡ Line.Told who order → ⊥) →
        length stage.old.rows ≡ length rows.now → IsOk result }
{
    let Some(action) = line_action(alloc, stage, line)? else {
        stage.skipped += 1;
        return Ok(Checked::On);
    };
    let at = stage.rows.len();
    if at >= rows.len() {
        return Ok(Checked::Ended);
    }
    let row = &rows[at];
    if take_row(alloc, stage, action, row)? {
        Ok(Checked::On)
    } else {
        Ok(Checked::Wrong)
    }
}

// Returns the delivery that a line of many may make next: the lowest-numbered of all, or with
// `free` the first of the actor `who`.
fn chosen_action<A, M: Parcel, O>(stage: &Stage<A, M, O>, free: bool, who: u32) -> Option<Action<O>>
    requires { IsUpToDate M.receiver stage.now }
    ensures action { result
        ≡ chosen_action M.receiver (numbers_of stage.now.seats.items) stage.now.rows free who }
    ensures can { IfSome result
        (λ action. can_act (numbers_of stage.now.seats.items) action ≡ true) }
{
    if free {
        first_action(stage, who)
    } else {
        lowest_action(stage)
    }
}

// Checks a line of many deliveries: a `free` line or a `settle` line.
fn check_many<A: Actor>(
    alloc: Global,
    stage: &mut Stage<A, A::Mail, A::Order>,
    most: u32,
    free: bool,
    rows: &[Row<A::Mail, A::Order>],
) -> Result<Checked, OutOfMemory>
where
    A::Mail: Same,
    A::Order: Same,
    requires taking { IsTaking A.Mail.receiver stage.old rows.now }
    ensures checked { IfOk result
        (λ checked.
        IsChecked (rules_of A.table A.Mail.receiver) stage.old (many free most ∷ []) stage.new
        rows.now checked) }
    ensures skipped { OnOk result (stage.new.skipped ≡ stage.old.skipped) }
    ensures zero { most ≡ 0 → IsOk result }
    ensures none { ((row : Row A.Mail A.Order) →
        slice_get rows.now (length stage.old.rows) ≡ Some row →
        chosen_action A.Mail.receiver (numbers_of stage.old.seats.items) stage.old.rows free row.who
        ≡ None) → IsOk result }
{
    for done in 0..most {
        let _ = done;
        if is_quiet(stage) {
            return Ok(Checked::On);
        }
        let at = stage.rows.len();
        if at >= rows.len() {
            return Ok(Checked::Ended);
        }
        let row = &rows[at];
        let Some(action) = chosen_action(stage, free, row.who) else {
            return Ok(Checked::Wrong);
        };
        if !take_row(alloc, stage, action, row)? {
            return Ok(Checked::Wrong);
        }
    }
    if !is_quiet(stage) {
        stage.unsettled = true;
    }
    Ok(Checked::On)
}

// Checks a step of a storm, by its two words.
fn check_step<A: Actor>(
    alloc: Global,
    stage: &mut Stage<A, A::Mail, A::Order>,
    words: (u32, u32),
    rows: &[Row<A::Mail, A::Order>],
) -> Result<Checked, OutOfMemory>
where
    A::Mail: Same,
    A::Order: Same,
    requires taking { IsTaking A.Mail.receiver stage.old rows.now }
    ensures checked { IfOk result
        (λ checked.
        IsChecked (rules_of A.table A.Mail.receiver) stage.old (Storms words ∷ []) stage.new
        rows.now checked) }
    ensures skipped { OnOk result (stage.new.skipped ≡ stage.old.skipped) }
    ensures none { storm_action A.Mail.receiver (numbers_of stage.old.seats.items) stage.old.rows
        (words.0 % 16) words.1
        ≡ None → IsOk result }
    ensures ended { length stage.old.rows ≡ length rows.now → IsOk result }
    ensures stays { length stage.old.rows ≡ length rows.now → stage.new.rows ≡ stage.old.rows }
{
    let Some(action) = storm_action(stage, words.0 % 16, words.1) else {
        return Ok(Checked::On);
    };
    let at = stage.rows.len();
    if at >= rows.len() {
        return Ok(Checked::Ended);
    }
    let row = &rows[at];
    if take_row(alloc, stage, action, row)? {
        Ok(Checked::On)
    } else {
        Ok(Checked::Wrong)
    }
}

// Checks `most` steps of the storm with this number.
fn check_storm<A: Actor>(
    alloc: Global,
    stage: &mut Stage<A, A::Mail, A::Order>,
    number: u64,
    most: u32,
    rows: &[Row<A::Mail, A::Order>],
) -> Result<Checked, OutOfMemory>
where
    A::Mail: Same,
    A::Order: Same,
    requires taking { IsTaking A.Mail.receiver stage.old rows.now }
    ensures checked { IfOk result
        (λ checked.
        IsChecked (rules_of A.table A.Mail.receiver) stage.old
        (storm_steps (two_words number) 0 most) stage.new rows.now checked) }
    ensures skipped { OnOk result (stage.new.skipped ≡ stage.old.skipped) }
    ensures zero { most ≡ 0 → IsOk result }
    ensures ended { length stage.old.rows ≡ length rows.now → IsOk result }
{
    let mut chance = Chance::start(number);
    for done in 0..most {
        let _ = done;
        let words = chance.draw();
        match check_step(alloc, stage, words, rows)? {
            Checked::On => {}
            Checked::Ended => return Ok(Checked::Ended),
            Checked::Wrong => return Ok(Checked::Wrong),
        }
    }
    Ok(Checked::On)
}

/// Checks a line against the rows behind those that the stage has taken.
pub(crate) fn check_line<A: Actor>(
    alloc: Global,
    stage: &mut Stage<A, A::Mail, A::Order>,
    line: &Line<A::Order>,
    rows: &[Row<A::Mail, A::Order>],
) -> Result<Checked, OutOfMemory>
where
    A::Mail: Same,
    A::Order: Same,
    requires taking { IsTaking A.Mail.receiver stage.old rows.now }
    requires room { stage.old.skipped < 2 ^ 64 - 1 }
    ensures checked { IfOk result
        (λ checked.
        IsChecked (rules_of A.table A.Mail.receiver) stage.old (tasks_of two_words line.now)
        stage.new
        rows.now checked) }
    ensures skipped { OnOk result (stage.new.skipped ≤ stage.old.skipped + 1) }
    ensures ended { ((who : ℕ) (order : A.Order) → line.now ≡ Line.Told who order → ⊥) →
        length stage.old.rows ≡ length rows.now → IsOk result }
{
    match line {
        Line::Settle { most } => check_many(alloc, stage, *most, false, rows),
        Line::Free { most, .. } => check_many(alloc, stage, *most, true, rows),
        Line::Storm { number, most } => check_storm(alloc, stage, *number, *most, rows),
        _ => check_once(alloc, stage, line, rows),
    }
}
