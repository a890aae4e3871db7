//! The entries of all logs, row by row, and by slot within one row.
ghost use Rattle.std.specs.Prelude.{◌≡◌, ◌+◌, ◌<◌, ◌++◌, ◌∷◌, [], List, true, Some, None, length, map, take, drop, find, if◌then◌else◌, IfOk, IsOk, OnOk};
ghost use Rattle.std.specs.List.{flat_map};
ghost use Rattle.sc_base.specs.Same.{same_draw};
ghost use Rattle.sc_base.specs.declared.names.Draw.{Draw};
ghost use Rattle.sc_words.specs.declared.commands.cores.Base.{Base};
ghost use Rattle.sc_words.specs.declared.commands.orders.OrderLine.{OrderLine};
ghost use Rattle.sc_mail.specs.declared.bodies.Mail.{Mail};
ghost use Rattle.sc_actor.specs.Mail.{mails};
ghost use Rattle.sc_actor.specs.declared.rows.Row.{Row};
ghost use Rattle.sc_group_table.specs.machine.Group.{group_of};
ghost use Rattle.sc_meaning.specs.sound.Players.{as_nodes};
ghost use Rattle.sc_meaning.specs.sound.Accepts.{accepts};
ghost use Rattle.sc_meaning.specs.sound.GroupsOf.{groups_at, log_at, entries_from, entries_by_row, entries_at};
ghost use Rattle.sc_world_logs.specs.declared.accepting.Acceptance.{Acceptance};
ghost use Rattle.sc_world_logs.specs.declared.known.Known.{Known};
ghost use Rattle.sc_world_logs.specs.Known.{Adds};
ghost use Rattle.sc_world_entries.specs.decided.Found.{log_kept, length_kept, length_of, length_before, log_length, entries_behind, grown_by, AreKnown, AreTaken, AreTracked, HoldKnown, IsHeard};

use crate::decided::births::{Groups, Heard, both, groups_from, groups_of, hear, log_in};
use sc_actor::Row;
use sc_base::{Draw, Dup, OutOfMemory, same_draw};
use sc_mail::Mail;
use sc_meaning::LogEntry;
use sc_words::{Base, Command, OrderLine};
use sc_world_logs::{Acceptance, Known, Taking, accepted_in, add_mails, take_in};
use std::alloc::Global;

// Adds the entries of a log behind its first `count`.
fn add_entries(
    alloc: Global,
    entries: &mut Vec<LogEntry>,
    name: Draw,
    count: usize,
    log: &[Command],
) -> Result<(), OutOfMemory>
    ensures { OnOk result (entries.new.items ≡
        entries.old.items ++ entries_from name (count + 1) (drop count log.now)) }
{
    for at in count..log.len() {
        if at >= 4_294_967_295 {
            return Err(OutOfMemory);
        }
        entries.push(LogEntry {
            group: name,
            slot: at as u32 + 1,
            command: log[at].dup(alloc)?,
        })?;
    }
    Ok(())
}

// Adds the entries that each group has gained, by the groups before a row and after it.
fn add_gained(
    alloc: Global,
    entries: &mut Vec<LogEntry>,
    before: &[Known],
    after: &[Known],
) -> Result<(), OutOfMemory>
    ensures { OnOk result (entries.new.items ≡ entries.old.items ++
        flat_map (entries_behind (log_length before.now) after.now) after.now) }
{
    for known in after {
        let name = known.base.core.id;
        add_entries(
            alloc,
            entries,
            name,
            log_in(before, name).len(),
            log_in(after, name),
        )?;
    }
    Ok(())
}

// Looks for all groups anew, before a row and after it, and adds the entries that they have gained.
fn look_again(
    alloc: Global,
    entries: &mut Vec<LogEntry>,
    bases: &[Base],
    before: &[Row<Mail, OrderLine>],
    after: &[Row<Mail, OrderLine>],
) -> Result<Groups, OutOfMemory>
    ensures { IfOk result (λ groups. AreTracked bases.now after.now groups ×
        ((row : Row Mail OrderLine) → after.now ≡ before.now ++ row ∷ [] →
        entries.new.items ≡
        entries.old.items ++ entries_by_row as_nodes bases.now before.now row)) }
{
    let old = groups_of(alloc, bases, before)?;
    let new = groups_of(alloc, bases, after)?;
    let olds = old.knowns.as_slice();
    let news = new.knowns.as_slice();
    add_gained(alloc, entries, olds, news)?;
    Ok(new)
}

// Takes an acceptance into each group, in place, since a group is large. Returns what became of what
// is known of all of them.
fn take_each(
    alloc: Global,
    knowns: &mut [Known],
    name: Draw,
    acceptance: &Acceptance,
) -> Result<Taking, OutOfMemory>
    ensures { IfOk result (λ taking. (rows after : List (Row Mail OrderLine)) →
        Adds (Some (name, acceptance.now)) rows after →
        AreTaken rows after taking knowns.old knowns.new) }
{
    let mut holds = true;
    let mut calm = true;
    for known in knowns.iter_mut() {
        let taking = take_in(alloc, known, name, acceptance)?;
        holds = both(holds, taking.holds);
        calm = both(calm, taking.calm);
    }
    Ok(Taking { holds, calm })
}

// Takes an acceptance into each group of a vector, as `take_each` does.
fn take_all(
    alloc: Global,
    knowns: &mut Vec<Known>,
    name: Draw,
    acceptance: &Acceptance,
) -> Result<Taking, OutOfMemory>
    ensures { IfOk result (λ taking. (rows after : List (Row Mail OrderLine)) →
        Adds (Some (name, acceptance.now)) rows after →
        AreTaken rows after taking knowns.old.items knowns.new.items) }
{
    take_each(alloc, knowns.as_mut_slice(), name, acceptance)
}

// Adds the entries that the log of the group with a name has behind its first `count`.
fn add_grown(
    alloc: Global,
    entries: &mut Vec<LogEntry>,
    knowns: &[Known],
    name: Draw,
    count: usize,
) -> Result<(), OutOfMemory>
    ensures { OnOk result (entries.new.items ≡ entries.old.items ++
        flat_map (grown_by name count (log_kept name knowns.now)) knowns.now) }
{
    let log = log_in(knowns, name);
    for known in knowns {
        if same_draw(known.base.core.id, name) {
            add_entries(alloc, entries, name, count, log)?;
        }
    }
    Ok(())
}

// Returns how long the logs are, each under the name of its group.
fn lengths_of(alloc: Global, knowns: &[Known]) -> Result<Vec<(Draw, usize)>, OutOfMemory>
    ensures { IfOk result (λ lengths. lengths.items ≡ map length_kept knowns.now) }
{
    let mut lengths = Vec::new(alloc);
    for known in knowns {
        let log = known.log.as_slice();
        lengths.push((known.base.core.id, log.len()))?;
    }
    Ok(lengths)
}

fn length_in(lengths: &[(Draw, usize)], name: Draw) -> usize
    ensures { result ≡ length_of name lengths.now }
{
    for noted in lengths {
        if same_draw(noted.0, name) {
            return noted.1;
        }
    }
    0
}

fn length_before(name: Draw, count: usize, lengths: &[(Draw, usize)], group: Draw) -> usize
    ensures { result ≡ length_before name count lengths.now group }
{
    if same_draw(group, name) {
        return count;
    }
    length_in(lengths, group)
}

// Adds the entries that each log has behind those that it had before a row, which accepts a command
// for the group with this name, whose log had this count of entries.
fn add_behind(
    alloc: Global,
    entries: &mut Vec<LogEntry>,
    name: Draw,
    count: usize,
    lengths: &[(Draw, usize)],
    knowns: &[Known],
) -> Result<(), OutOfMemory>
    ensures { OnOk result (entries.new.items ≡ entries.old.items ++
        flat_map (entries_behind (length_before name count lengths.now) knowns.now) knowns.now) }
{
    for known in knowns {
        let group = known.base.core.id;
        let before = length_before(name, count, lengths, group);
        let log = log_in(knowns, group);
        add_entries(alloc, entries, group, before, log)?;
    }
    Ok(())
}

// Looks for the groups after a row by which the log of the group with this name creates some, and
// adds the entries that the row decides. What was known of the other groups is kept.
fn look_for_births(
    alloc: Global,
    entries: &mut Vec<LogEntry>,
    bases: &[Base],
    after: &[Row<Mail, OrderLine>],
    knowns: Vec<Known>,
    heard: &Heard,
    name: Draw,
    count: usize,
) -> Result<Groups, OutOfMemory>
    ensures { IfOk result (λ groups. (before : List (Row Mail OrderLine)) (row : Row Mail OrderLine)
        (acceptance : Acceptance) (olds : List Known) → after.now ≡ before ++ row ∷ [] →
        Adds (Some (name, acceptance)) before after.now → IsHeard after.now heard.now →
        AreKnown before (groups_at as_nodes bases.now before) olds →
        HoldKnown after.now olds knowns.items → count ≡ length (log_kept name olds) →
        AreTracked bases.now after.now groups × (entries.new.items ≡
        entries.old.items ++ entries_by_row as_nodes bases.now before row)) }
{
    let kept = knowns.as_slice();
    let noted = lengths_of(alloc, kept)?;
    let groups = groups_from(alloc, bases, after, knowns, heard)?;
    let lengths = noted.as_slice();
    let found = groups.knowns.as_slice();
    add_behind(alloc, entries, name, count, lengths, found)?;
    Ok(groups)
}

// Takes one more row, which accepts a command, and adds the entries that it decides.
fn after_acceptance(
    alloc: Global,
    entries: &mut Vec<LogEntry>,
    bases: &[Base],
    before: &[Row<Mail, OrderLine>],
    after: &[Row<Mail, OrderLine>],
    mut knowns: Vec<Known>,
    heard: &Heard,
    name: Draw,
    acceptance: &Acceptance,
) -> Result<Groups, OutOfMemory>
    ensures { IfOk result (λ groups.
        (row : Row Mail OrderLine) → after.now ≡ before.now ++ row ∷ [] →
        Adds (Some (name, acceptance.now)) before.now after.now → IsHeard after.now heard.now →
        AreTracked bases.now before.now (record { knowns = knowns; settled = true }) →
        AreTracked bases.now after.now groups ×
        (entries.new.items ≡
        entries.old.items ++ entries_by_row as_nodes bases.now before.now row)) }
{
    let kept = knowns.as_slice();
    let count = log_in(kept, name).len();
    let taking = take_all(alloc, &mut knowns, name, acceptance)?;
    let holds = taking.holds;
    if !holds {
        let found = look_again(alloc, entries, bases, before, after)?;
        return Ok(found);
    }
    let calm = taking.calm;
    if !calm {
        let born = look_for_births(alloc, entries, bases, after, knowns, heard, name, count)?;
        return Ok(born);
    }
    let later = knowns.as_slice();
    add_grown(alloc, entries, later, name, count)?;
    Ok(Groups {
        knowns,
        settled: true,
    })
}

/// Takes one more row, and adds the entries that it decides.
pub(crate) fn after_row(
    alloc: Global,
    entries: &mut Vec<LogEntry>,
    bases: &[Base],
    before: &[Row<Mail, OrderLine>],
    after: &[Row<Mail, OrderLine>],
    groups: Groups,
    heard: &Heard,
    accepted: Option<(Draw, Acceptance)>,
) -> Result<Groups, OutOfMemory>
    ensures entries { IfOk result (λ found.
        (row : Row Mail OrderLine) → after.now ≡ before.now ++ row ∷ [] →
        Adds accepted before.now after.now → IsHeard after.now heard.now →
        AreTracked bases.now before.now groups →
        AreTracked bases.now after.now found ×
        (entries.new.items ≡
        entries.old.items ++ entries_by_row as_nodes bases.now before.now row)) }
    ensures none { groups.settled ≡ true → accepted ≡ None → IsOk result }
{
    if !groups.settled {
        let found = look_again(alloc, entries, bases, before, after)?;
        return Ok(found);
    }
    match accepted {
        None => Ok(groups),
        Some((name, acceptance)) => {
            let found = after_acceptance(
                alloc,
                entries,
                bases,
                before,
                after,
                groups.knowns,
                heard,
                name,
                &acceptance,
            )?;
            Ok(found)
        }
    }
}

/// Returns the entries of all logs, in the order of the rows that decided them, and by slot within
/// one row.
pub fn entries_of(
    alloc: Global,
    bases: &[Base],
    rows: &[Row<Mail, OrderLine>],
) -> Result<Vec<LogEntry>, OutOfMemory>
    ensures entries { IfOk result
        (λ entries. entries.items ≡ entries_at as_nodes bases.now rows.now) }
    ensures none { bases.now ≡ [] → rows.now ≡ [] → IsOk result }
{
    let mut entries = Vec::new(alloc);
    let mut sent = Vec::new(alloc);
    let mut heard = Heard {
        names: Vec::new(alloc),
        all: true,
    };
    let mut groups = groups_of(alloc, bases, &rows[..0])?;
    for i in 0..rows.len() {
        let row = &rows[i];
        let mails = sent.as_slice();
        let accepted = accepted_in(alloc, mails, row)?;
        hear(&mut heard, &accepted)?;
        let before = &rows[..i];
        let after = &rows[..i + 1];
        let next = after_row(
            alloc,
            &mut entries,
            bases,
            before,
            after,
            groups,
            &heard,
            accepted,
        )?;
        groups = next;
        let more = row.sent.as_slice();
        add_mails(&mut sent, more)?;
    }
    Ok(entries)
}

/// Returns the decided log of the group with a name: the longest list whose entry k is chosen at
/// slot k. It is empty where there is no such group.
pub fn log_at(
    alloc: Global,
    bases: &[Base],
    rows: &[Row<Mail, OrderLine>],
    name: Draw,
) -> Result<Vec<Command>, OutOfMemory>
    ensures log { IfOk result (λ log. log.items ≡ log_at as_nodes bases.now rows.now name) }
    ensures none { bases.now ≡ [] → IsOk result }
{
    let groups = groups_of(alloc, bases, rows)?;
    let kept = groups.knowns.as_slice();
    let found = log_in(kept, name);
    let mut log = Vec::new(alloc);
    for command in found {
        log.push(command.dup(alloc)?)?;
    }
    Ok(log)
}
