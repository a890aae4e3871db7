//! What a coordinator asks, and whom.
ghost use Rattle.std.specs.Prelude.{◌≡◌, [], false, IfOk, OnOk, IsOk};
ghost use Rattle.sc_mail.specs.declared.bodies.MailBody.TheVariants.{TxPrepare};
ghost use Rattle.sc_base.specs.Roster.{least_of};
ghost use Rattle.sc_group_table.specs.machine.Plans.{can_split};
ghost use Rattle.sc_group_table.specs.machine.Orders.{locked_in};
ghost use Rattle.sc_group_table.specs.machine.Splits.{is_locked_in};
ghost use Rattle.sc_node_parts.specs.transactions.Quiet.{coordinates};
ghost use Rattle.sc_node_table.specs.Mails.{sent, sent_all};
ghost use Rattle.sc_node_table.specs.Questions.{offer_of, heard_link, watcher_link, or_successor, asked_link, watch_of, child_link, both_link, split_watch, union_watch, heard_question, question, asked_node, asked_least, asked_all, asked_first};
ghost use Rattle.sc_node_table.specs.Transactions.{next_asked, asked_next};

use crate::replica::send;
use sc_base::{Boxed, Draw, OutOfMemory, Sequence, same_draw};
use sc_group_parts::{can_split, plan_split};
use sc_mail::{Mail, MailBody};
use sc_words::{Body, Core, Frozen, Heard, Link, Lock, Offer, Watch};
use std::alloc::Global;

/// Returns the offer of a coordinator to its participant.
fn offer_of(me: u16, core: &Core, body: &Body) -> Offer
    ensures { result ≡ offer_of me core.now body.now }
{
    Offer {
        coord: core.id,
        part: core.succ.group,
        arc: core.arc,
        members: core.members,
        body: *body,
        by: me,
    }
}

/// Returns the group behind a participant that was heard.
pub(crate) fn heard_link(heard: &Option<Heard>) -> Option<Link>
    ensures { result ≡ heard_link heard.now }
{
    match heard {
        None => None,
        Some(heard) => Some(heard.frozen.succ),
    }
}

/// Returns the watcher's link, where the watcher is asked.
fn watcher_link(core: &Core, body: &Body, heard: &Option<Heard>) -> Option<Link>
    ensures { result ≡ watcher_link core.now body.now heard.now }
{
    match body {
        Body::Merge | Body::Repart { .. } | Body::Migrate { .. } => heard_link(heard),
        Body::Split { .. } => Some(core.succ),
    }
}

/// Returns this link, and the successor where there is none.
pub(crate) fn or_successor(core: &Core, link: Option<Link>) -> Link
    ensures { result ≡ or_successor core.now link }
{
    match link {
        None => core.succ,
        Some(link) => link,
    }
}

/// Returns the link of the group that a coordinator asks.
fn asked_link(core: &Core, body: &Body, heard: &Option<Heard>) -> Link
    ensures { result ≡ asked_link core.now body.now heard.now }
{
    or_successor(core, watcher_link(core, body, heard))
}

/// Returns the question of a coordinator to its watcher, which is to take `next` for its neighbour
/// in place of `old`.
fn watch_of(me: u16, core: &Core, watcher: &Link, old: Draw, next: Link) -> Watch
    ensures { result ≡ watch_of me core.now watcher.now old next }
{
    Watch {
        coord: core.id,
        members: core.members,
        part: watcher.group,
        old,
        next,
        by: me,
    }
}

/// Returns the link of the child with the members that go to it. For a group that cannot be split
/// there, which is never asked for it, these are its own.
fn child_link(alloc: Global, core: &Core, at: u32, child: Draw) -> Result<Link, OutOfMemory>
    ensures link { IfOk result (λ link. link ≡ child_link core.now at child) }
    ensures whole { can_split core.now at ≡ false → IsOk result }
{
    if !can_split(core, at) {
        return Ok(Link {
            group: child,
            members: core.members,
        });
    }
    let (_left, right) = plan_split(alloc, core, at, child)?;
    Ok(Link {
        group: child,
        members: right.members,
    })
}

/// Returns the link of the group with the members of both. Where these are more than nine, which
/// are never merged, they are its own.
fn both_link(core: &Core, frozen: &Frozen) -> Link
    ensures { result ≡ both_link core.now frozen.now }
{
    if core.members.count_with(&frozen.members) <= 9 {
        return Link {
            group: core.id,
            members: core.members.union(&frozen.members),
        };
    }
    Link {
        group: core.id,
        members: core.members,
    }
}

/// Returns the question to the watcher of a split.
fn split_watch(
    alloc: Global,
    me: u16,
    core: &Core,
    at: u32,
    child: Draw,
) -> Result<Watch, OutOfMemory>
    ensures watch { IfOk result (λ watch. watch ≡ split_watch me core.now at child) }
    ensures whole { can_split core.now at ≡ false → IsOk result }
{
    let next = child_link(alloc, core, at, child)?;
    Ok(watch_of(me, core, &core.succ, core.id, next))
}

/// Returns the question to the watcher of a merge.
fn union_watch(me: u16, core: &Core, heard: &Heard) -> Watch
    ensures { result ≡ union_watch me core.now heard.now }
{
    let next = both_link(core, &heard.frozen);
    watch_of(me, core, &heard.frozen.succ, core.succ.group, next)
}

/// Returns the watcher's question once the participant was heard.
fn heard_question(
    alloc: Global,
    me: u16,
    core: &Core,
    tx: Draw,
    body: &Body,
    heard: &Option<Heard>,
) -> Result<MailBody, OutOfMemory>
    ensures { IfOk result (λ asked. asked ≡ heard_question me core.now tx body.now heard.now) }
{
    match heard {
        None => {
            let offer = Boxed::new(alloc, offer_of(me, core, body))?;
            Ok(MailBody::TxPrepare { tx, offer })
        }
        Some(heard) => {
            let watch = Boxed::new(alloc, union_watch(me, core, heard))?;
            Ok(MailBody::TxWatch { tx, watch })
        }
    }
}

/// Returns what a coordinator asks: its participant first, and then the watcher.
fn question(
    alloc: Global,
    me: u16,
    core: &Core,
    tx: Draw,
    body: &Body,
    heard: &Option<Heard>,
) -> Result<MailBody, OutOfMemory>
    ensures { IfOk result (λ asked. asked ≡ question me core.now tx body.now heard.now) }
{
    match body {
        Body::Merge | Body::Repart { .. } | Body::Migrate { .. } => {
            heard_question(alloc, me, core, tx, body, heard)
        }
        Body::Split { at, child } => {
            let watch = Boxed::new(alloc, split_watch(alloc, me, core, *at, *child)?)?;
            Ok(MailBody::TxWatch { tx, watch })
        }
    }
}

/// Sends the question of a coordinator to one node.
fn ask_node(
    alloc: Global,
    me: u16,
    core: &Core,
    tx: Draw,
    body: &Body,
    heard: &Option<Heard>,
    node: u16,
    out: &mut Sequence<Mail>,
) -> Result<(), OutOfMemory>
    ensures { OnOk result (out.new ≡ asked_node me core.now tx body.now heard.now node out.old) }
{
    let asked = question(alloc, me, core, tx, body, heard)?;
    send(me, node as u32, asked, out)
}

/// Sends the question of a coordinator to the least member of the group that is asked.
fn ask_least(
    alloc: Global,
    me: u16,
    core: &Core,
    tx: Draw,
    body: &Body,
    heard: &Option<Heard>,
    out: &mut Sequence<Mail>,
) -> Result<(), OutOfMemory>
    ensures { OnOk result (out.new ≡ asked_least me core.now tx body.now heard.now out.old) }
{
    let node = asked_link(core, body, heard).members.least();
    ask_node(alloc, me, core, tx, body, heard, node, out)
}

/// Sends the question of a coordinator to each of these nodes.
#[tactic(auto, unfolding(sc_node_table::specs::Mails::sent_all))]
fn ask_nodes(
    alloc: Global,
    me: u16,
    core: &Core,
    tx: Draw,
    body: &Body,
    heard: &Option<Heard>,
    nodes: &[u16],
    out: &mut Sequence<Mail>,
) -> Result<(), OutOfMemory>
    ensures mails { OnOk result
        (out.new ≡ sent_all me nodes.now (question me core.now tx body.now heard.now) out.old) }
    ensures none { nodes.now ≡ [] → IsOk result }
{
    for node in nodes {
        ask_node(alloc, me, core, tx, body, heard, *node, out)?;
    }
    Ok(())
}

/// Sends the question of a coordinator to each member of the group that is asked.
pub(crate) fn ask_all(
    alloc: Global,
    me: u16,
    core: &Core,
    tx: Draw,
    body: &Body,
    heard: &Option<Heard>,
    out: &mut Sequence<Mail>,
) -> Result<(), OutOfMemory>
    ensures mails { OnOk result
        (out.new ≡ asked_all me core.now tx body.now heard.now out.old) }
    ensures none { asked_all me core.now tx body.now heard.now [] ≡ [] → IsOk result }
{
    let link = asked_link(core, body, heard);
    ask_nodes(
        alloc,
        me,
        core,
        tx,
        body,
        heard,
        link.members.as_slice(),
        out,
    )
}

/// Sends the first question of a group that coordinates. Another group has nothing to ask.
pub(crate) fn ask_first(
    alloc: Global,
    me: u16,
    core: &Core,
    out: &mut Sequence<Mail>,
) -> Result<(), OutOfMemory>
    ensures mails { OnOk result (out.new ≡ asked_first core.now.lock me core.now out.old) }
    ensures unasked { coordinates core.now.lock ≡ false → IsOk result }
{
    match &core.lock {
        Lock::Coordinating {
            tx,
            body,
            heard,
            ..
        } => ask_least(alloc, me, core, *tx, body, heard, out),
        Lock::Free | Lock::Promised { .. } | Lock::Watching { .. } => Ok(()),
    }
}

/// Sends the question of a group that has begun, its offer, to the least member of its successor.
pub(crate) fn ask_successor(
    alloc: Global,
    me: u16,
    core: &Core,
    tx: Draw,
    body: &Body,
    out: &mut Sequence<Mail>,
) -> Result<(), OutOfMemory>
    ensures { OnOk result
        (out.new
        ≡ sent me (least_of core.now.succ.members) (TxPrepare tx (offer_of me core.now body.now))
        out.old) }
{
    let offer = Boxed::new(alloc, offer_of(me, core, body))?;
    let node = core.succ.members.least();
    send(me, node as u32, MailBody::TxPrepare { tx, offer }, out)
}

/// Returns the node that is asked next: the one that was named, or the member after the sender.
fn next_asked(hint: Option<u16>, link: &Link, from: u16) -> u16
    ensures { result ≡ next_asked hint link.now.members from }
{
    match hint {
        Some(node) => node,
        None => link.members.after(from),
    }
}

/// Sends the coordinator's question of this transaction again, where a node did not lead the group
/// that it asked.
pub fn ask_next(
    alloc: Global,
    me: u16,
    core: &Core,
    from: u16,
    tx: Draw,
    hint: Option<u16>,
    out: &mut Sequence<Mail>,
) -> Result<(), OutOfMemory>
    ensures mails { OnOk result
        (out.new ≡ asked_next core.now.lock me core.now from tx hint out.old) }
    ensures unasked { coordinates core.now.lock ≡ false → IsOk result }
    ensures others { is_locked_in (locked_in core.now.lock) tx ≡ false → IsOk result }
{
    match &core.lock {
        Lock::Coordinating {
            tx: locked,
            body,
            heard,
            ..
        } => {
            if !same_draw(*locked, tx) {
                return Ok(());
            }
            let node = next_asked(hint, &asked_link(core, body, heard), from);
            ask_node(alloc, me, core, tx, body, heard, node, out)
        }
        Lock::Free | Lock::Promised { .. } | Lock::Watching { .. } => Ok(()),
    }
}
