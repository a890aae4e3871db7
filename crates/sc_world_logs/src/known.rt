//! What is kept of a group: its decided log, and what the log is computed from.
ghost use Rattle.std.specs.Prelude.{◌≡◌, ◌&&◌, ◌+◌, ◌-◌, ◌<◌, ◌++◌, ◌∷◌, [], ℕ, List, true, false, length, take, slice_get, Option, Some, None, IfOk, IsOk, OnOk};
ghost use Rattle.sc_words.specs.declared.commands.commands.Command.{Command};
ghost use Rattle.sc_group_table.specs.machine.Group.{Group, group_of};
ghost use Rattle.sc_group_table.specs.machine.Machine.{applied};
ghost use Rattle.sc_group_table.specs.machine.Logs.{state_after};
ghost use Rattle.sc_paxos_law.specs.Chosen.{members_of};
ghost use Rattle.sc_paxos_law.specs.Decided.{chosen_at};
ghost use Rattle.sc_paxos_law.specs.Steps.{Step};
ghost use Rattle.sc_meaning.specs.sound.Players.{as_nodes};
ghost use Rattle.sc_meaning.specs.sound.Accepts.{accepts};
ghost use Rattle.sc_meaning.specs.sound.GroupsOf.{children_of};
ghost use Rattle.sc_meaning.specs.sound.Logs.{rule_of};
ghost use Rattle.std.specs.Ordering.{nat_cmp};
ghost use Rattle.std.specs.BTreeMap.{get_by};
ghost use Rattle.sc_base.specs.Same.{same_draw};
ghost use Rattle.sc_base.specs.declared.names.Draw.{Draw};
ghost use Rattle.sc_words.specs.declared.commands.orders.OrderLine.{OrderLine};
ghost use Rattle.sc_mail.specs.declared.bodies.Mail.{Mail};
ghost use Rattle.sc_actor.specs.declared.rows.Row.{Row};
ghost use Rattle.sc_world_logs.specs.declared.accepting.Acceptance.{Acceptance};
ghost use Rattle.sc_world_logs.specs.Acceptances.{step_of, steps_of, steps_by};
ghost use Rattle.sc_world_logs.specs.Indexes.{listed_in, IsIndexed};
ghost use Rattle.sc_world_logs.specs.Known.{kept_of, Agrees, KeepsChildren, NothingFollows, IsKnown, IsTaken, Adds};

use crate::accepting::{Acceptance, accepts};
use crate::choosing::chosen_at;
use crate::indexing::{BySlot, add, at_slot, by_slot};
use sc_actor::Row;
use sc_base::{Draw, Dup, Members, OutOfMemory, Same, same_draw};
use sc_group::Machine;
use sc_mail::Mail;
use sc_meaning::births_are_children;
use sc_node_table::OPEN_SLOTS;
use sc_words::{Base, Command, OrderLine};
use std::alloc::Global;

/// What rows show of one group.
#[derive(Drop)]
pub struct Known {
    /// The group's birth record.
    pub base: Base,
    /// What was accepted for the group, by slot.
    pub index: BySlot,
    /// The group's decided log.
    pub log: Vec<Command>,
    /// The birth records of the groups that the log creates, in its order.
    pub children: Vec<Base>,
    /// The members of each slot of the log.
    pub members: Vec<Members>,
    /// The group's state after the log.
    pub state: Machine,
    /// The group's state that gives the members of the next slot: that after all but the last
    /// entries of the log, as many of them as there are open slots less one.
    pub behind: Machine,
}

/// What became of what is known of a group when an acceptance was taken in.
#[derive(Clone, Copy)]
pub struct Taking {
    /// True only where it is what the rows with the accepting row show.
    pub holds: bool,
    /// True only where besides the log creates the same groups as before.
    pub calm: bool,
}

// Returns whether both hold.
fn both(one: bool, other: bool) -> bool
    ensures { result ≡ (one && other) }
{
    one && other
}

// Executes one more entry.
fn execute(machine: &mut Machine, command: &Command) -> Result<(), OutOfMemory>
    ensures { OnOk result (machine.new ≡ (applied machine.old command.now).0) }
{
    machine.apply(command)?;
    Ok(())
}

// Appends an entry to the log, and executes in `behind` the entry by which the state reaches the
// one that gives the members of the next slot.
fn lengthen(
    behind: &mut Machine,
    log: &mut Vec<Command>,
    command: Command,
) -> Result<(), OutOfMemory>
    ensures log { OnOk result (log.new.items ≡ log.old.items ++ command ∷ []) }
    ensures behind { OnOk result ((group : Group) →
        behind.old ≡
        state_after group (take (length log.old.items + 1 - as_nodes.slots) log.old.items) →
        behind.new ≡
        state_after group (take (length log.new.items + 1 - as_nodes.slots) log.new.items)) }
{
    log.push(command)?;
    if OPEN_SLOTS <= log.len() {
        execute(behind, &log[log.len() - OPEN_SLOTS])?;
    }
    Ok(())
}

// Executes one more entry in the group's state, and adds the child that the entry creates, if it
// creates one. Returns whether it creates none.
fn step(
    state: &mut Machine,
    children: &mut Vec<Base>,
    command: &Command,
) -> Result<bool, OutOfMemory>
    ensures { IfOk result (λ childless. (state.new ≡ (applied state.old command.now).0) ×
        (children.new.items ≡ children.old.items ++ children_of state.old (command.now ∷ [])) ×
        (childless ≡ true → children_of state.old (command.now ∷ []) ≡ [])) }
{
    births_are_children();
    let child = state.child_by(command)?;
    execute(state, command)?;
    match child {
        None => Ok(true),
        Some(child) => {
            children.push(child)?;
            Ok(false)
        }
    }
}

// Adds the next command, which was chosen, to all that is kept. Returns whether it creates no
// child.
fn grow(known: &mut Known, command: Command) -> Result<bool, OutOfMemory>
    ensures { IfOk result (λ childless. (h : List (Step Command)) → Agrees h known.old →
        chosen_at (members_of (rule_of as_nodes known.old.base) known.old.log.items
        (length known.old.log.items + 1)) h (length known.old.log.items + 1) ≡ Some command →
        Agrees h known.new × (known.new.base ≡ known.old.base) ×
        (KeepsChildren known.old → KeepsChildren known.new) ×
        (childless ≡ true → children_of (group_of known.new.base) known.new.log.items
        ≡ children_of (group_of known.old.base) known.old.log.items)) }
{
    let childless = step(&mut known.state, &mut known.children, &command)?;
    known.members.push(known.behind.core().members)?;
    lengthen(&mut known.behind, &mut known.log, command)?;
    Ok(childless)
}

// Returns the slot after the log. Where a `u32` does not hold its number, it reports out of memory.
fn next_slot(log: &[Command]) -> Result<u32, OutOfMemory>
    ensures slot { IfOk result (λ slot. slot ≡ length log.now + 1) }
    ensures few { length log.now < 4294967295 → IsOk result }
{
    if log.len() >= 4_294_967_295 {
        return Err(OutOfMemory);
    }
    Ok(log.len() as u32 + 1)
}

// Returns the command that is chosen at the slot after the log, if one is.
fn next_of(alloc: Global, known: &Known) -> Result<Option<Command>, OutOfMemory>
    ensures { IfOk result (λ next. (h : List (Step Command)) → Agrees h known.now →
        chosen_at (members_of (rule_of as_nodes known.now.base) known.now.log.items
        (length known.now.log.items + 1)) h (length known.now.log.items + 1) ≡ next) }
{
    let slot = next_slot(known.log.as_slice())?;
    let found = at_slot(&known.index, slot);
    match chosen_at(&known.behind.core().members, found, slot) {
        None => Ok(None),
        Some(command) => Ok(Some(command.dup(alloc)?)),
    }
}

// Lengthens the log as far as commands are chosen. Returns whether none of the new entries creates
// a child.
fn advance(alloc: Global, known: &mut Known) -> Result<bool, OutOfMemory>
    ensures { IfOk result (λ childless. (h : List (Step Command)) → Agrees h known.old →
        Agrees h known.new × (known.new.base ≡ known.old.base) ×
        NothingFollows (rule_of as_nodes known.new.base) h known.new.log.items ×
        (KeepsChildren known.old → KeepsChildren known.new) ×
        (childless ≡ true → children_of (group_of known.new.base) known.new.log.items
        ≡ children_of (group_of known.old.base) known.old.log.items)) }
{
    let mut childless = true;
    for _more in 0..4_294_967_295u32 {
        match next_of(alloc, known)? {
            None => return Ok(childless),
            Some(command) => {
                let makes_none = grow(known, command)?;
                childless = both(childless, makes_none);
            }
        }
    }
    Err(OutOfMemory)
}

// Returns what rows show of a group with this birth record, where this is what they accept for it.
fn known_from(alloc: Global, base: Base, found: Vec<Acceptance>) -> Result<Known, OutOfMemory>
    ensures { IfOk result (λ known. (known.base ≡ base) × ((rows : List (Row Mail OrderLine)) →
        steps_of found.items ≡ accepts base.core.id rows → IsKnown rows known)) }
{
    let index = by_slot(alloc, found)?;
    let one = base.dup(alloc)?;
    let state = Machine::born(alloc, one)?;
    let other = base.dup(alloc)?;
    let behind = Machine::born(alloc, other)?;
    let log = Vec::new(alloc);
    let children = Vec::new(alloc);
    let members = Vec::new(alloc);
    let mut known = Known {
        base,
        index,
        log,
        children,
        members,
        state,
        behind,
    };
    let _childless = advance(alloc, &mut known)?;
    Ok(known)
}

/// Returns what rows show of a group with this birth record. The only error is out of memory.
pub fn known_of(
    alloc: Global,
    base: Base,
    rows: &[Row<Mail, OrderLine>],
) -> Result<Known, OutOfMemory>
    ensures { IfOk result (λ known. IsKnown rows.now known × (known.base ≡ base)) }
{
    let found = accepts(alloc, base.core.id, rows)?;
    known_from(alloc, base, found)
}

/// Returns what rows show of a group with this birth record for which they accept nothing. The only
/// error is out of memory.
pub fn unheard_of(alloc: Global, base: Base) -> Result<Known, OutOfMemory>
    ensures { IfOk result (λ known. (known.base ≡ base) × ((rows : List (Row Mail OrderLine)) →
        accepts base.core.id rows ≡ [] → IsKnown rows known)) }
{
    known_from(alloc, base, Vec::new(alloc))
}

// Returns whether the log's command at a slot is still the one that is chosen there.
fn is_still_chosen(known: &Known, slot: u32) -> bool
    requires { (0 < slot) × (slot < length known.now.log.items + 1) }
    ensures { result ≡ true → (found : List Acceptance) (members : List ℕ) →
        IsIndexed (kept_of known.now) found →
        slice_get known.now.members.items (slot - 1) ≡ Some members →
        chosen_at members (steps_of found) slot ≡ slice_get known.now.log.items (slot - 1) }
{
    let place = (slot - 1) as usize;
    if known.members.len() <= place {
        return false;
    }
    let found = at_slot(&known.index, slot);
    match chosen_at(&known.members[place], found, slot) {
        None => false,
        Some(command) => command.is_same(&known.log[place]),
    }
}

// Adds one more acceptance for the group. What is kept holds afterwards where the log's command at
// its slot is still chosen, and is calm where besides no entry that the log goes on by creates a
// child.
fn take(alloc: Global, known: &mut Known, acceptance: &Acceptance) -> Result<Taking, OutOfMemory>
    ensures { IfOk result (λ taking. (rows after : List (Row Mail OrderLine)) →
        accepts known.old.base.core.id after ≡
        step_of acceptance.now ∷ accepts known.old.base.core.id rows →
        IsKnown rows known.old → IsTaken rows after taking known.old known.new) }
{
    let slot = acceptance.slot;
    add(alloc, &mut known.index, acceptance.dup(alloc)?)?;
    if slot as usize > known.log.len() {
        let calm = advance(alloc, known)?;
        return Ok(Taking { holds: true, calm });
    }
    if slot == 0 {
        return Ok(Taking {
            holds: true,
            calm: true,
        });
    }
    let still = is_still_chosen(known, slot);
    Ok(Taking {
        holds: still,
        calm: still,
    })
}

/// Takes in an acceptance for the group with this name, where that is the known group, and returns
/// what became of what is known of it. The only error is out of memory, where the group is the known
/// one.
pub fn take_in(
    alloc: Global,
    known: &mut Known,
    name: Draw,
    acceptance: &Acceptance,
) -> Result<Taking, OutOfMemory>
    ensures known { IfOk result (λ taking. (rows after : List (Row Mail OrderLine)) →
        Adds (Some (name, acceptance.now)) rows after → IsKnown rows known.old →
        IsTaken rows after taking known.old known.new) }
    ensures none { same_draw known.old.base.core.id name ≡ false → IsOk result }
{
    if same_draw(known.base.core.id, name) {
        let taking = take(alloc, known, acceptance)?;
        return Ok(taking);
    }
    Ok(Taking {
        holds: true,
        calm: true,
    })
}
