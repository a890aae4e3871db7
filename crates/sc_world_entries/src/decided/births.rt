//! The groups that rows decide: those of a scenario, and round by round the children that the
//! decided logs of the groups found so far create.
ghost use Rattle.std.specs.Prelude.{◌≡◌, ◌&&◌, ◌++◌, ◌<◌, [], List, true, None, drop, fold, find, get_or, length, take, IfOk, IfSome, IsOk, OnOk};
ghost use Rattle.std.specs.List.{flat_map, list_any};
ghost use Rattle.std.specs.Option.{option_copied};
ghost use Rattle.sc_base.specs.Among.{Each};
ghost use Rattle.sc_base.specs.Same.{same_draw};
ghost use Rattle.sc_base.specs.declared.names.Draw.{Draw};
ghost use Rattle.sc_words.specs.declared.commands.cores.Base.{Base};
ghost use Rattle.sc_words.specs.declared.commands.orders.OrderLine.{OrderLine};
ghost use Rattle.sc_mail.specs.declared.bodies.Mail.{Mail};
ghost use Rattle.sc_actor.specs.declared.rows.Row.{Row};
ghost use Rattle.sc_meaning.specs.sound.Players.{as_nodes};
ghost use Rattle.sc_meaning.specs.sound.GroupsOf.{with_birth, with_next_children};
ghost use Rattle.sc_world_logs.specs.Known.{Adds, IsKnown};
ghost use Rattle.sc_world_logs.specs.declared.accepting.Acceptance.{Acceptance};
ghost use Rattle.sc_world_logs.specs.declared.known.Known.{Known};
ghost use Rattle.sc_world_entries.specs.decided.Found.{is_kept_of, log_kept, AreKnown, AreTracked, HaveChildrenOf, IsHeard};

use sc_actor::Row;
use sc_base::{Draw, Dup, OutOfMemory, Same, same_draw};
use sc_mail::Mail;
use sc_words::{Base, Command, OrderLine};
use sc_world_logs::{Acceptance, Known, known_of, unheard_of};
use std::alloc::Global;

/// The groups that were found in rows, each with what the rows say of it, and whether their logs
/// are known to create no other group.
#[derive(Drop)]
pub(crate) struct Groups {
    pub knowns: Vec<Known>,
    pub settled: bool,
}

/// The names for which rows accept commands: all of them, where `all` holds.
#[derive(Drop)]
pub(crate) struct Heard {
    pub names: Vec<Draw>,
    pub all: bool,
}

/// Returns whether both hold.
pub(crate) fn both(one: bool, other: bool) -> bool
    ensures { result ≡ (one && other) }
{
    one && other
}

// ---- what rows accept

fn has_name(names: &[Draw], name: Draw) -> bool
    ensures { result ≡ list_any (same_draw name) names.now }
{
    for other in names {
        if same_draw(name, *other) {
            return true;
        }
    }
    false
}

// Adds the name for which one more row accepts a command.
fn add_name(heard: &mut Heard, name: Draw) -> Result<(), OutOfMemory>
    ensures { OnOk result ((acceptance : Acceptance) (rows after : List (Row Mail OrderLine)) →
        Adds (Some (name, acceptance)) rows after →
        IsHeard rows heard.old → IsHeard after heard.new) }
{
    if has_name(heard.names.as_slice(), name) {
        return Ok(());
    }
    heard.names.push(name)?;
    Ok(())
}

/// Adds the name for which one more row accepts a command, if it accepts one.
pub(crate) fn hear(
    heard: &mut Heard,
    accepted: &Option<(Draw, Acceptance)>,
) -> Result<(), OutOfMemory>
    ensures heard { OnOk result ((rows after : List (Row Mail OrderLine)) →
        Adds accepted.now rows after → IsHeard rows heard.old → IsHeard after heard.new) }
    ensures none { accepted.now ≡ None → IsOk result }
{
    match accepted {
        None => Ok(()),
        Some((name, _acceptance)) => {
            add_name(heard, *name)?;
            Ok(())
        }
    }
}

// ---- one group

// Returns what rows show of a group with this birth record. Where all names are heard for which
// the rows accept commands, the rows are not walked through for another name.
fn known_by(
    alloc: Global,
    heard: &Heard,
    base: Base,
    rows: &[Row<Mail, OrderLine>],
) -> Result<Known, OutOfMemory>
    ensures { IfOk result (λ known. IsHeard rows.now heard.now →
        IsKnown rows.now known × (known.base ≡ base)) }
{
    if heard.all {
        if !has_name(heard.names.as_slice(), base.core.id) {
            let known = unheard_of(alloc, base)?;
            return Ok(known);
        }
    }
    let known = known_of(alloc, base, rows)?;
    Ok(known)
}

// Returns whether what is known is about the group with this birth record. Their names are compared
// first.
fn is_of(known: &Known, base: &Base) -> bool
    ensures { result ≡ true → known.now.base ≡ base.now }
{
    if !same_draw(known.base.core.id, base.core.id) {
        return false;
    }
    known.base.is_same(base)
}

// Returns the place of what is known about the group with this birth record, if it is there.
fn place_of(pool: &[Known], base: &Base) -> Option<usize>
    ensures { IfSome result (λ at. (at < length pool.now) ×
        ((known : Known) → (get_or pool.now at known).base ≡ base.now)) }
{
    for at in 0..pool.len() {
        if is_of(&pool[at], base) {
            return Some(at);
        }
    }
    None
}

// Returns what rows show of a group with this birth record, taken from the pool if it is there.
fn take_known(
    alloc: Global,
    pool: &mut Vec<Known>,
    heard: &Heard,
    base: &Base,
    rows: &[Row<Mail, OrderLine>],
) -> Result<Known, OutOfMemory>
    ensures { IfOk result (λ known. IsHeard rows.now heard.now →
        Each (IsKnown rows.now) pool.old.items → IsKnown rows.now known ×
        (known.base ≡ base.now) × Each (IsKnown rows.now) pool.new.items) }
{
    match place_of(pool.as_slice(), base) {
        Some(at) => Ok(pool.swap_remove(at)),
        None => {
            let copy = base.dup(alloc)?;
            let known = known_by(alloc, heard, copy, rows)?;
            Ok(known)
        }
    }
}

// ---- round by round

fn first_knowns(
    alloc: Global,
    bases: &[Base],
    rows: &[Row<Mail, OrderLine>],
    pool: &mut Vec<Known>,
    heard: &Heard,
) -> Result<Vec<Known>, OutOfMemory>
    ensures known { IfOk result (λ knowns. IsHeard rows.now heard.now →
        Each (IsKnown rows.now) pool.old.items →
        AreKnown rows.now bases.now knowns.items × Each (IsKnown rows.now) pool.new.items) }
    ensures none { bases.now ≡ [] → IfOk result (λ knowns. knowns.items ≡ []) × IsOk result }
{
    let mut knowns = Vec::new(alloc);
    for base in bases {
        // Room for all groups of the pool at once, since a group is large.
        knowns.reserve(pool.len().saturating_add(1))?;
        let known = take_known(alloc, pool, heard, base, rows)?;
        knowns.push(known)?;
    }
    Ok(knowns)
}

fn has_named(knowns: &[Known], name: Draw) -> bool
    ensures { result ≡ list_any (is_kept_of name) knowns.now }
{
    for known in knowns {
        if same_draw(known.base.core.id, name) {
            return true;
        }
    }
    false
}

// Returns whether a group of one of two lists has a name.
fn is_there(knowns: &[Known], born: &[Known], name: Draw) -> bool
    ensures { result ≡ list_any (is_kept_of name) (knowns.now ++ born.now) }
{
    if has_named(knowns, name) {
        return true;
    }
    has_named(born, name)
}

// Adds a child to those that are born, unless a group has its name.
fn add_birth(
    alloc: Global,
    knowns: &[Known],
    born: &mut Vec<Known>,
    pool: &mut Vec<Known>,
    heard: &Heard,
    child: &Base,
    rows: &[Row<Mail, OrderLine>],
) -> Result<(), OutOfMemory>
    ensures { OnOk result (IsHeard rows.now heard.now → Each (IsKnown rows.now) pool.old.items →
        (bases : List Base) → AreKnown rows.now bases (knowns.now ++ born.old.items) →
        AreKnown rows.now (with_birth bases child.now) (knowns.now ++ born.new.items) ×
        Each (IsKnown rows.now) pool.new.items) }
{
    let kept = born.as_slice();
    if is_there(knowns, kept, child.core.id) {
        return Ok(());
    }
    let known = take_known(alloc, pool, heard, child, rows)?;
    born.push(known)?;
    Ok(())
}

// Adds each of these children to those that are born, unless a group has its name.
fn add_births(
    alloc: Global,
    knowns: &[Known],
    born: &mut Vec<Known>,
    pool: &mut Vec<Known>,
    heard: &Heard,
    children: &[Base],
    rows: &[Row<Mail, OrderLine>],
) -> Result<(), OutOfMemory>
    ensures { OnOk result (IsHeard rows.now heard.now → Each (IsKnown rows.now) pool.old.items →
        (bases : List Base) → AreKnown rows.now bases (knowns.now ++ born.old.items) →
        AreKnown rows.now (fold with_birth bases children.now) (knowns.now ++ born.new.items) ×
        Each (IsKnown rows.now) pool.new.items) }
{
    for child in children {
        add_birth(alloc, knowns, born, pool, heard, child, rows)?;
    }
    Ok(())
}

// Returns the groups from a place on, or none where there are fewer.
fn behind(knowns: &[Known], from: usize) -> &[Known]
    ensures { result.now ≡ drop from knowns.now }
{
    if from <= knowns.len() {
        &knowns[from..]
    } else {
        &[]
    }
}

// Returns the children that the logs of the newest groups create, unless a group has their name.
fn born_of(
    alloc: Global,
    knowns: &[Known],
    newest: &[Known],
    pool: &mut Vec<Known>,
    heard: &Heard,
    rows: &[Row<Mail, OrderLine>],
) -> Result<Vec<Known>, OutOfMemory>
    ensures known { IfOk result (λ born. IsHeard rows.now heard.now →
        Each (IsKnown rows.now) pool.old.items →
        (bases : List Base) → AreKnown rows.now bases knowns.now →
        AreKnown rows.now (fold with_birth bases
        (flat_map (λ known. known.children.items) newest.now)) (knowns.now ++ born.items) ×
        Each (IsKnown rows.now) pool.new.items) }
    ensures none { newest.now ≡ [] → IfOk result (λ born. born.items ≡ []) × IsOk result }
{
    let mut born = Vec::new(alloc);
    for known in newest {
        let children = known.children.as_slice();
        add_births(alloc, knowns, &mut born, pool, heard, children, rows)?;
    }
    Ok(born)
}

fn add_all(knowns: &mut Vec<Known>, mut born: Vec<Known>) -> Result<(), OutOfMemory>
    ensures knowns { OnOk result (knowns.new.items ≡ knowns.old.items ++ born.items) }
{
    knowns.append(&mut born)?;
    Ok(())
}

// Adds the children that the logs of the groups from a place on create, where those of the groups
// before it are there. Returns whether there was none to add.
fn look_on(
    alloc: Global,
    knowns: &mut Vec<Known>,
    from: usize,
    pool: &mut Vec<Known>,
    heard: &Heard,
    rows: &[Row<Mail, OrderLine>],
) -> Result<bool, OutOfMemory>
    ensures known { IfOk result (λ were. IsHeard rows.now heard.now →
        Each (IsKnown rows.now) pool.old.items →
        (bases : List Base) → AreKnown rows.now bases knowns.old.items →
        HaveChildrenOf bases (take from knowns.old.items) →
        AreKnown rows.now (with_next_children as_nodes rows.now bases) knowns.new.items ×
        (were ≡ true → with_next_children as_nodes rows.now bases ≡ bases) ×
        Each (IsKnown rows.now) pool.new.items ×
        HaveChildrenOf (with_next_children as_nodes rows.now bases)
        (take (length knowns.old.items) knowns.new.items)) }
    ensures none { knowns.old.items ≡ [] → IfOk result (λ were. knowns.new.items ≡ []) × IsOk result }
{
    let kept = knowns.as_slice();
    let newest = behind(kept, from);
    let born = born_of(alloc, kept, newest, pool, heard, rows)?;
    let found = born.as_slice();
    if found.is_empty() {
        return Ok(true);
    }
    add_all(knowns, born)?;
    Ok(false)
}

/// Returns the groups that rows decide, each with what the rows say of it, which is taken from the
/// pool where it is there.
pub(crate) fn groups_from(
    alloc: Global,
    bases: &[Base],
    rows: &[Row<Mail, OrderLine>],
    mut pool: Vec<Known>,
    heard: &Heard,
) -> Result<Groups, OutOfMemory>
    ensures tracked { IfOk result (λ groups. IsHeard rows.now heard.now →
        Each (IsKnown rows.now) pool.items → AreTracked bases.now rows.now groups) }
    ensures none { bases.now ≡ [] → IsOk result }
{
    let mut knowns = first_knowns(alloc, bases, rows, &mut pool, heard)?;
    let mut from = 0usize;
    for _round in 0..rows.len() {
        let kept = knowns.as_slice();
        let count = kept.len();
        let were = look_on(alloc, &mut knowns, from, &mut pool, heard, rows)?;
        if were {
            return Ok(Groups {
                knowns,
                settled: true,
            });
        }
        from = count;
    }
    Ok(Groups {
        knowns,
        settled: false,
    })
}

/// Returns the groups that rows decide, each with what the rows say of it.
pub(crate) fn groups_of(
    alloc: Global,
    bases: &[Base],
    rows: &[Row<Mail, OrderLine>],
) -> Result<Groups, OutOfMemory>
    ensures tracked { IfOk result (λ groups. AreTracked bases.now rows.now groups) }
    ensures none { bases.now ≡ [] → IsOk result }
{
    let heard = Heard {
        names: Vec::new(alloc),
        all: false,
    };
    let pool = Vec::new(alloc);
    groups_from(alloc, bases, rows, pool, &heard)
}

fn known_in(knowns: &[Known], name: Draw) -> Option<&Known>
    ensures { option_copied result ≡ find (is_kept_of name) knowns.now }
{
    knowns
        .iter()
        .find(|known| same_draw(known.base.core.id, name))
}

/// Returns the log that is kept of the group with a name, which is empty where there is no such
/// group.
pub(crate) fn log_in(knowns: &[Known], name: Draw) -> &[Command]
    ensures { result.now ≡ log_kept name knowns.now }
{
    match known_in(knowns, name) {
        Some(known) => known.log.as_slice(),
        None => &[],
    }
}
