//! All groups, after some entries.
ghost use Rattle.std.specs.Prelude.{◌≡◌, ◌++◌, [], Some, None, find, map, if◌then◌else◌, IfOk, IsOk, OnOk, MatchResult};
ghost use Rattle.std.specs.Option.{option_map, option_copied};
ghost use Rattle.sc_words.specs.declared.commands.commands.Command.TheVariants.{Finish};
ghost use Rattle.sc_group_table.specs.machine.Group.{Group, base_of};
ghost use Rattle.sc_group_table.specs.machine.Machine.{applied};
ghost use Rattle.sc_group_table.specs.machine.Logs.{entry_of};
ghost use Rattle.sc_meaning.specs.entries.Effective.{is_commit, effective, effective_by, after_outcome};
ghost use Rattle.sc_meaning.specs.entries.Rings.{HaveArcs, ring_after};
ghost use Rattle.sc_meaning.specs.entries.Worlds.{CoverThroughout, first_world, named_group, recorded, with_result, world_of};
ghost use Rattle.sc_world_groups.specs.Effects.{effect_in};
ghost use Rattle.sc_world_groups.specs.Places.{IsFirstNamed};
ghost use Rattle.sc_world_groups.specs.declared.errors.EntryError.TheVariants.{NoArc};

use crate::groups::{again, born, execute, is_named, place_of};
use crate::{EntryError, add_entry, decision, first_cuts, ring_after};
use sc_base::{Draw, Dup, OutOfMemory};
use sc_group::Machine;
use sc_meaning::{Cut, LogEntry, Transaction};
use sc_words::{Base, Command, Core, Effect, Entry, Lock, Outcome};
use std::alloc::Global;
use std::marker::Model;
use std::mem;

/// All groups after some entries: each group as its own log makes it, the transactions, the ring,
/// and the history.
#[derive(Drop)]
pub struct StoreWorld {
    groups: Vec<Machine>,
    transactions: Vec<Transaction>,
    ring: Vec<Cut>,
    history: Vec<Entry>,
    alloc: Global,
}

impl Model for StoreWorld {
    ghost use Rattle.std.specs.FinMap as map;
    ghost use Rattle.std.specs.Coded.{Coded, codes, coded_ℕ, coded_list};
    ghost use Rattle.sc_words.specs.ideal.IdealStore.{Contents};
    ghost use Rattle.sc_words.specs.ideal.Clients.{ClientTable};
    ghost use Rattle.sc_meaning.specs.entries.Worlds.{StoreWorld};

    ghost Value = { StoreWorld };

    ghost coded = { let pairs : Coded Contents = map.code (coded_list coded_ℕ) (coded_list coded_ℕ)
        in let clients : Coded ClientTable = map.code coded_ℕ (Prim.hlevel codes) in Prim.hlevel
        (codes, pairs, clients) };

    ghost view = { λ w. record { groups = w.groups.items; transactions = w.transactions.items; ring = w.ring.items; history = w.history.items } };
}

// Adds to the history the entry that a command is with its effect, if it is one.
fn note(
    alloc: Global,
    history: &mut Vec<Entry>,
    command: &Command,
    effect: &Effect,
) -> Result<(), OutOfMemory>
    ensures history { OnOk result (history.new.items ≡
        history.old.items ++ entry_of command.now effect.now) }
    ensures none { entry_of command.now effect.now ≡ [] → IsOk result }
{
    match command {
        Command::Call { client, seq, op } => {
            if let Effect::Done(reply) = effect {
                history.push(Entry {
                    client: *client,
                    seq: *seq,
                    op: op.dup(alloc)?,
                    reply: reply.dup(alloc)?,
                })?;
            }
            Ok(())
        }
        _ => Ok(()),
    }
}

// Brings the ring up to an entry of the log of a group with this record before the entry.
fn change_ring(
    alloc: Global,
    ring: &mut Vec<Cut>,
    core: &Core,
    command: &Command,
    effect: &Effect,
) -> Result<(), EntryError>
    ensures { MatchResult result
        (λ _. ring.new.items ≡ ring_after core.now command.now effect.now ring.old.items)
        (λ error. error ≡ NoArc →
        HaveArcs (ring_after core.now command.now effect.now ring.old.items) → ⊥) }
{
    let old = mem::replace(ring, Vec::new(alloc));
    match ring_after(alloc, core, command, effect, old) {
        Ok(after) => {
            *ring = after;
            Ok(())
        }
        Err(error) => Err(error),
    }
}

impl StoreWorld {
    /// Returns the world of the groups of a scenario before any entry.
    pub fn first(alloc: Global, bases: &[Base]) -> Result<StoreWorld, OutOfMemory>
        ensures world { IfOk result (λ world. world ≡ first_world bases.now) }
        ensures none { bases.now ≡ [] → IsOk result }
    {
        Ok(StoreWorld {
            groups: born(alloc, bases)?,
            transactions: Vec::new(alloc),
            ring: first_cuts(alloc, bases)?,
            history: Vec::new(alloc),
            alloc,
        })
    }

    /// Takes one more entry. Fails where it runs out of memory, and where the entry would leave a
    /// cut that is no arc; then the world may only be dropped. It never fails where the entry's
    /// group was not created.
    pub fn add_entry(&mut self, entry: &LogEntry) -> Result<(), EntryError>
        ensures recorded { MatchResult result (λ _. self.new ≡ recorded self.old entry.now)
            (λ error. error ≡ NoArc → HaveArcs (recorded self.old entry.now).ring → ⊥) }
        ensures none { named_group entry.now.group self.old.groups ≡ None → IsOk result }
    {
        match self.take(entry) {
            Ok(_effect) => Ok(()),
            Err(error) => Err(error),
        }
    }

    /// Takes one more entry, and returns its effect, if its group was created. Fails where it runs
    /// out of memory, and where the entry would leave a cut that is no arc; then the world may only
    /// be dropped. It never fails where the entry's group was not created.
    pub fn take(&mut self, entry: &LogEntry) -> Result<Option<Effect>, EntryError>
        ensures recorded { MatchResult result
            (λ effect. (self.new ≡ recorded self.old entry.now) ×
            (effect ≡ effect_in self.old entry.now))
            (λ error. error ≡ NoArc → HaveArcs (recorded self.old entry.now).ring → ⊥) }
        ensures none { named_group entry.now.group self.old.groups ≡ None → IsOk result }
    {
        match place_of(self.groups.as_slice(), entry.group) {
            None => Ok(None),
            Some(at) => match self.execute(entry.group, at, &entry.command) {
                Ok(effect) => Ok(Some(effect)),
                Err(error) => Err(error),
            },
        }
    }

    fn execute(&mut self, name: Draw, at: usize, command: &Command) -> Result<Effect, EntryError>
        requires { IsFirstNamed name self.old.groups at }
        ensures { MatchResult result
            (λ effect. (group : Group) → named_group name self.old.groups ≡ Some group →
            (self.new ≡ with_result self.old group command.now (applied group command.now)) ×
            (effect ≡ (applied group command.now).1))
            (λ error. error ≡ NoArc →
            (group : Group) → named_group name self.old.groups ≡ Some group →
            HaveArcs (with_result self.old group command.now (applied group command.now)).ring →
            ⊥) }
    {
        let (core, effect) = execute(self.alloc, &mut self.groups, at, command)?;
        add_entry(self.alloc, &mut self.transactions, &core, command, &effect)?;
        match change_ring(self.alloc, &mut self.ring, &core, command, &effect) {
            Ok(()) => {}
            Err(error) => return Err(error),
        }
        note(self.alloc, &mut self.history, command, &effect)?;
        Ok(effect)
    }

    /// Returns all groups that were created, in the order of their creation, each as its own log
    /// makes it.
    pub fn groups(&self) -> &[Machine]
        ensures { result.now ≡ self.now.groups }
    {
        self.groups.as_slice()
    }

    /// Returns the decided ring.
    pub fn ring(&self) -> &[Cut]
        ensures { result.now ≡ self.now.ring }
    {
        self.ring.as_slice()
    }

    /// Returns the requests that took effect, each with its reply, in their order.
    pub fn history(&self) -> &[Entry]
        ensures { result.now ≡ self.now.history }
    {
        self.history.as_slice()
    }

    /// Returns the ring and the history.
    pub fn into_parts(self) -> (Vec<Cut>, Vec<Entry>)
        ensures ring { result.0.items ≡ self.ring }
        ensures history { result.1.items ≡ self.history }
    {
        (self.ring, self.history)
    }

    /// Returns the group with a name, as its own log makes it, if it was created.
    pub fn group(&self, name: Draw) -> Option<&Machine>
        ensures { option_copied result ≡ named_group name self.now.groups }
    {
        self.groups.iter().find(|group| is_named(group, name))
    }

    /// Returns the effective record of a group, if it was created: as its own log makes it, and as
    /// the outcome of its transaction, decided by another group, makes it. Fails only where the
    /// group was created.
    pub fn effective(&self, name: Draw) -> Result<Option<Base>, OutOfMemory>
        ensures base { IfOk result (λ base. base ≡ option_map base_of (effective self.now name)) }
        ensures none { named_group name self.now.groups ≡ None → IsOk result }
    {
        match self.group(name) {
            None => Ok(None),
            Some(group) => Ok(Some(self.effective_of(group)?)),
        }
    }

    fn effective_of(&self, group: &Machine) -> Result<Base, OutOfMemory>
        ensures { IfOk result (λ base. base ≡
            base_of (effective_by group.now.core.lock self.now.transactions group.now)) }
    {
        match &group.core().lock {
            Lock::Free | Lock::Coordinating { .. } => group.base(),
            Lock::Promised { tx, .. } | Lock::Watching { tx, .. } => {
                let outcome = decision(self.alloc, self.transactions.as_slice(), *tx)?;
                after_outcome(self.alloc, outcome, *tx, group)
            }
        }
    }
}

fn is_commit(outcome: &Outcome) -> bool
    ensures { result ≡ is_commit outcome.now }
{
    match outcome {
        Outcome::Abort => false,
        Outcome::Merged { .. }
        | Outcome::Moved { .. }
        | Outcome::Migrated { .. }
        | Outcome::Divided => true,
    }
}

fn finish(machine: &mut Machine, command: &Command) -> Result<(), OutOfMemory>
    ensures { OnOk result (machine.new ≡ (applied machine.old command.now).0) }
{
    machine.apply(command)?;
    Ok(())
}

// Returns a group's record after this outcome of its transaction.
fn finished(alloc: Global, outcome: Outcome, tx: Draw, group: &Machine) -> Result<Base, OutOfMemory>
    ensures { IfOk result (λ base. base ≡ base_of
        (if is_commit outcome then (applied group.now (Finish tx outcome)).0 else group.now)) }
{
    if !is_commit(&outcome) {
        let base = group.base()?;
        return Ok(base);
    }
    let command = Command::Finish { tx, outcome };
    let mut after = again(alloc, group)?;
    finish(&mut after, &command)?;
    let base = after.base()?;
    Ok(base)
}

// Returns a group's record after the outcome of its transaction, if there is one.
fn after_outcome(
    alloc: Global,
    outcome: Option<Outcome>,
    tx: Draw,
    group: &Machine,
) -> Result<Base, OutOfMemory>
    ensures { IfOk result (λ base. base ≡ base_of (after_outcome outcome tx group.now)) }
{
    match outcome {
        None => group.base(),
        Some(outcome) => finished(alloc, outcome, tx, group),
    }
}

/// Returns what these entries make of the groups of a scenario, where the ring covers the circle
/// after each of them. Fails only where it runs out of memory.
pub fn world_of(
    alloc: Global,
    bases: &[Base],
    entries: &[LogEntry],
) -> Result<StoreWorld, OutOfMemory>
    requires { CoverThroughout bases.now entries.now }
    ensures world { IfOk result (λ world. world ≡ world_of bases.now entries.now) }
    ensures none { bases.now ≡ [] → IsOk result }
{
    let mut world = StoreWorld::first(alloc, bases)?;
    for entry in entries {
        match world.add_entry(entry) {
            Ok(()) => {}
            Err(EntryError::OutOfMemory) => return Err(OutOfMemory),
            Err(EntryError::NoArc) => unreachable!(),
        }
    }
    Ok(world)
}
