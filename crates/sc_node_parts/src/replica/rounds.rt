//! The same mail to each of several nodes, and the mail with a group's state.
ghost use Rattle.std.specs.Prelude.{◌≡◌, [], All, OnOk, IsOk};
ghost use Rattle.sc_mail.specs.declared.bodies.MailBody.TheVariants.{Prepare, Accept, Learn, Install};
ghost use Rattle.sc_node_table.specs.Mails.{sent, sent_all, sent_others};

use crate::replica::mails::send;
use sc_base::{Ballot, Boxed, Draw, Dup, OutOfMemory, Sequence};
use sc_mail::{Mail, MailBody};
use sc_words::{Base, Command, MemberSets};
use std::alloc::Global;

/// Appends a prepare of a ballot to each of these nodes (Paxos Made Simple, section 2.2, phase 1a).
#[tactic(auto, unfolding(sc_node_table::specs::Mails::sent_all))]
pub fn send_prepares(
    me: u16,
    group: Draw,
    nodes: &[u16],
    ballot: Ballot,
    from_slot: u32,
    out: &mut Sequence<Mail>,
) -> Result<(), OutOfMemory>
    ensures mails { OnOk result
        (out.new ≡ sent_all me nodes.now (Prepare group ballot from_slot) out.old) }
    ensures none { nodes.now ≡ [] → IsOk result }
{
    for node in nodes {
        send(
            me,
            *node as u32,
            MailBody::Prepare {
                group,
                ballot,
                from_slot,
            },
            out,
        )?;
    }
    Ok(())
}

/// Appends an accept of a command at a slot to each of these nodes (Paxos Made Simple, section 2.2,
/// phase 2a).
#[tactic(auto, unfolding(sc_node_table::specs::Mails::sent_all))]
pub fn send_accepts(
    alloc: Global,
    me: u16,
    group: Draw,
    nodes: &[u16],
    ballot: Ballot,
    slot: u32,
    command: &Command,
    out: &mut Sequence<Mail>,
) -> Result<(), OutOfMemory>
    ensures mails { OnOk result
        (out.new ≡ sent_all me nodes.now (Accept group ballot slot command.now) out.old) }
    ensures none { nodes.now ≡ [] → IsOk result }
{
    for node in nodes {
        send(
            me,
            *node as u32,
            MailBody::Accept {
                group,
                ballot,
                slot,
                command: command.dup(alloc)?,
            },
            out,
        )?;
    }
    Ok(())
}

// Appends a learn of a command to a node.
fn send_learn(
    alloc: Global,
    me: u16,
    group: Draw,
    node: u16,
    slot: u32,
    command: &Command,
    out: &mut Sequence<Mail>,
) -> Result<(), OutOfMemory>
    ensures { OnOk result (out.new ≡ sent me node (Learn group slot command.now) out.old) }
{
    send(
        me,
        node as u32,
        MailBody::Learn {
            group,
            slot,
            command: command.dup(alloc)?,
        },
        out,
    )
}

/// Appends a learn of the chosen command of a slot to each of these nodes but the sender (Paxos
/// Made Simple, section 2.3).
#[tactic(auto, unfolding(sc_node_table::specs::Mails::sent_others))]
pub fn send_learns(
    alloc: Global,
    me: u16,
    group: Draw,
    nodes: &[u16],
    slot: u32,
    command: &Command,
    out: &mut Sequence<Mail>,
) -> Result<(), OutOfMemory>
    ensures mails { OnOk result
        (out.new ≡ sent_others me nodes.now (Learn group slot command.now) out.old) }
    ensures alone { All (λ node. node ≡ me) nodes.now → IsOk result }
{
    for node in nodes {
        if *node != me {
            send_learn(alloc, me, group, *node, slot, command, out)?;
        }
    }
    Ok(())
}

/// Appends a mail to a node with the state after a slot and the members of the open slots.
pub fn send_install(
    alloc: Global,
    me: u16,
    group: Draw,
    node: u16,
    slot: u32,
    base: Base,
    sets: MemberSets,
    out: &mut Sequence<Mail>,
) -> Result<(), OutOfMemory>
    ensures { OnOk result (out.new ≡ sent me node (Install group slot base sets) out.old) }
{
    let body = MailBody::Install {
        group,
        slot,
        base: Boxed::new(alloc, base)?,
        sets,
    };
    send(me, node as u32, body, out)
}
