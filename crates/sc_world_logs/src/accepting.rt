//! What rows accept, and for which group.
ghost use Rattle.std.specs.Prelude.{◌≡◌, map, ◌++◌, [], ◌&&◌, IfOk, IsOk, OnOk};
ghost use Rattle.std.specs.List.{list_any};
ghost use Rattle.std.specs.Option.{option_copied};
ghost use Rattle.sc_actor.specs.Mail.{numbered};
ghost use Rattle.sc_base.specs.Same.{same_draw};
ghost use Rattle.sc_base.specs.declared.names.Draw.{Draw};
ghost use Rattle.sc_meaning.specs.sound.Accepts.{is_accepted, accepts_of, accepts_at, accepts};
ghost use Rattle.sc_world_logs.specs.Acceptances.{steps_of, steps_by};

use sc_actor::{Event, Row};
use sc_base::{Ballot, Draw, Dup, OutOfMemory, same_ballot, same_draw};
use sc_mail::{Mail, MailBody};
use sc_words::{Command, OrderLine};
use std::alloc::Global;

/// One acceptance: a node accepted a command at a slot in a ballot (Paxos Made Simple, section 2.2,
/// phase 2b).
#[derive(Clone, Drop)]
pub struct Acceptance {
    /// The node that accepted.
    pub node: u32,
    /// The ballot in which it accepted.
    pub ballot: Ballot,
    /// The slot at which it accepted.
    pub slot: u32,
    /// The command that it accepted.
    pub command: Command,
}

impl Dup for Acceptance {
    fn dup(&self, _alloc: Global) -> Result<Acceptance, OutOfMemory> {
        Ok(self.clone()?)
    }
}

fn is_accepted(group: Draw, ballot: Ballot, slot: u32, body: &MailBody) -> bool
    ensures { result ≡ is_accepted group ballot slot body.now }
{
    match body {
        MailBody::Accepted {
            group: of,
            ballot: in_ballot,
            slot: at,
        } => same_draw(*of, group) && same_ballot(*in_ballot, ballot) && *at == slot,
        _ => false,
    }
}

fn says_accepted(group: Draw, ballot: Ballot, slot: u32, sent: &[Mail]) -> bool
    ensures { result ≡ list_any (λ mail. is_accepted group ballot slot mail.body) sent.now }
{
    for mail in sent {
        if is_accepted(group, ballot, slot, &mail.body) {
            return true;
        }
    }
    false
}

// Returns whether a row that delivers an Accept of one group (`of`) accepts it for another name
// (`group`): the names are the same, and the row sends that it accepted.
fn is_taken(group: Draw, of: Draw, ballot: Ballot, slot: u32, row: &Row<Mail, OrderLine>) -> bool
    ensures { result ≡ (same_draw of group &&
        list_any (λ mail. is_accepted of ballot slot mail.body) row.now.sent) }
{
    if !same_draw(of, group) {
        return false;
    }
    says_accepted(of, ballot, slot, row.sent.as_slice())
}

// Returns what a row accepts when it delivers a mail, with the group that it is accepted for.
fn accepted_by(
    alloc: Global,
    row: &Row<Mail, OrderLine>,
    body: &MailBody,
) -> Result<Option<(Draw, Acceptance)>, OutOfMemory>
    ensures accepted { IfOk result (λ accepted. (group : Draw) →
        accepts_of group row.now body.now ≡ steps_by group accepted) }
    ensures none { ((group : Draw) → accepts_of group row.now body.now ≡ []) → IsOk result }
{
    match body {
        MailBody::Accept {
            group,
            ballot,
            slot,
            command,
        } => {
            if !says_accepted(*group, *ballot, *slot, row.sent.as_slice()) {
                return Ok(None);
            }
            let acceptance = Acceptance {
                node: row.who,
                ballot: *ballot,
                slot: *slot,
                command: command.dup(alloc)?,
            };
            Ok(Some((*group, acceptance)))
        }
        _ => Ok(None),
    }
}

/// Returns what a row accepts, with the group that it is accepted for. `sent` is the mail that was
/// sent before the row, in order. The only error is out of memory, where the row accepts a command.
pub fn accepted_in(
    alloc: Global,
    sent: &[&Mail],
    row: &Row<Mail, OrderLine>,
) -> Result<Option<(Draw, Acceptance)>, OutOfMemory>
    ensures accepted { IfOk result (λ accepted. (group : Draw) →
        accepts_at group (map (λ mail. mail.now) sent.now) row.now row.now.event
        ≡ steps_by group accepted) }
    ensures none { ((group : Draw) →
        accepts_at group (map (λ mail. mail.now) sent.now) row.now row.now.event ≡ [])
        → IsOk result }
{
    let Event::Deliver(number) = &row.event else {
        return Ok(None);
    };
    match got(sent, *number) {
        None => Ok(None),
        Some(mail) => accepted_by(alloc, row, &mail.body),
    }
}

fn note_accept(
    alloc: Global,
    group: Draw,
    row: &Row<Mail, OrderLine>,
    body: &MailBody,
    found: &mut Vec<Acceptance>,
) -> Result<(), OutOfMemory>
    ensures found { OnOk result (steps_of found.new.items ≡
        accepts_of group row.now body.now ++ steps_of found.old.items) }
    ensures none { accepts_of group row.now body.now ≡ [] → IsOk result }
{
    match body {
        MailBody::Accept {
            group: of,
            ballot,
            slot,
            command,
        } => {
            if is_taken(group, *of, *ballot, *slot, row) {
                let command = command.dup(alloc)?;
                found.push(Acceptance {
                    node: row.who,
                    ballot: *ballot,
                    slot: *slot,
                    command,
                })?;
            }
            Ok(())
        }
        _ => Ok(()),
    }
}

fn got<'a>(sent: &[&'a Mail], mail: u32) -> Option<&'a Mail>
    ensures { option_copied result ≡ numbered (map (λ mail. mail.now) sent.now) mail }
{
    if mail == 0 {
        return None;
    }
    if sent.len() < mail as usize {
        return None;
    }
    Some(sent[(mail - 1) as usize])
}

fn note_row(
    alloc: Global,
    group: Draw,
    sent: &[&Mail],
    row: &Row<Mail, OrderLine>,
    found: &mut Vec<Acceptance>,
) -> Result<(), OutOfMemory>
    ensures found { OnOk result (steps_of found.new.items ≡
        accepts_at group (map (λ mail. mail.now) sent.now) row.now row.now.event
        ++ steps_of found.old.items) }
    ensures none { accepts_at group (map (λ mail. mail.now) sent.now) row.now row.now.event ≡ []
        → IsOk result }
{
    let Event::Deliver(number) = &row.event else {
        return Ok(());
    };
    match got(sent, *number) {
        None => Ok(()),
        Some(mail) => note_accept(alloc, group, row, &mail.body, found),
    }
}

/// Appends the mail of one more row to the mail that was sent so far.
pub fn add_mails<'a>(sent: &mut Vec<&'a Mail>, more: &'a [Mail]) -> Result<(), OutOfMemory>
    ensures sent { OnOk result (map (λ mail. mail.now) sent.new.items ≡
        map (λ mail. mail.now) sent.old.items ++ more.now) }
    ensures none { more.now ≡ [] → IsOk result }
{
    for mail in more {
        sent.push(mail)?;
    }
    Ok(())
}

/// Returns what the rows of a journal accept for a group, in the order of the rows: each row that
/// delivers an Accept of the group and sends that it accepted. The only error is out of memory.
pub(crate) fn accepts(
    alloc: Global,
    group: Draw,
    rows: &[Row<Mail, OrderLine>],
) -> Result<Vec<Acceptance>, OutOfMemory>
    ensures found { IfOk result (λ found. steps_of found.items ≡ accepts group rows.now) }
    ensures none { rows.now ≡ [] → IsOk result }
{
    let mut sent = Vec::new(alloc);
    let mut found = Vec::new(alloc);
    for row in rows {
        note_row(alloc, group, sent.as_slice(), row, &mut found)?;
        add_mails(&mut sent, row.sent.as_slice())?;
    }
    Ok(found)
}
