//! How a client sends its requests.
ghost use Rattle.std.specs.Prelude.{◌≡◌, ◌∷◌, [], ◌≤◌, IfOk, IsOk};
ghost use Rattle.std.specs.Option.{option_map};
ghost use Rattle.sc_client_table.specs.table.Client.{waiting_request};
ghost use Rattle.sc_client_table.specs.table.Table.{request_of, sent_to, request_sent, started, turned_on, client_ticked};

use crate::client::ClientCore;
use sc_base::{Draw, Dup, Op, OutOfMemory, Sequence};
use sc_mail::{Mail, MailBody, client_number};
use std::alloc::Global;

/// Returns the mail that carries a request.
fn request_mail(
    alloc: Global,
    me: u16,
    group: Draw,
    target: u16,
    seq: u32,
    op: &Op,
) -> Result<Mail, OutOfMemory>
    ensures { IfOk result (λ mail. mail ≡ request_of me group target (seq, op.now)) }
{
    Ok(Mail {
        from: client_number(me),
        to: target as u32,
        body: MailBody::Request {
            group,
            client: me,
            seq,
            op: op.dup(alloc)?,
        },
    })
}

fn just(alloc: Global, mail: Mail) -> Result<Sequence<Mail>, OutOfMemory>
    ensures { IfOk result (λ mails. mails ≡ mail ∷ []) }
{
    let mut mails = Sequence::new(alloc);
    mails.push(mail)?;
    Ok(mails)
}

impl ClientCore {
    /// Returns the request that waits, with its number, if one does.
    fn waiting_request(&self) -> Option<(u32, &Op)>
        ensures { option_map (λ request. (request.0, request.1.now)) result
            ≡ waiting_request self.now }
    {
        match self.waiting {
            Some(seq) => Some((seq, self.requests.at(seq as usize - 1))),
            None => None,
        }
    }

    /// Sends the waiting request to a group's target. Does not fail where nothing is sent.
    pub(crate) fn send_to(
        &mut self,
        alloc: Global,
        group: Draw,
    ) -> Result<Sequence<Mail>, OutOfMemory>
        ensures sent { IfOk result (λ mails. sent_to group self.old ≡ (self.new, mails)) }
        ensures none { (sent_to group self.old).1 ≡ [] → IsOk result }
    {
        let Some(target) = self.routes.target(group) else {
            return Ok(Sequence::new(alloc));
        };
        let Some((seq, op)) = self.waiting_request() else {
            return Ok(Sequence::new(alloc));
        };
        let mail = request_mail(alloc, self.me, group, target, seq, op)?;
        self.asked = Some((group, target));
        just(alloc, mail)
    }

    /// Sends the waiting request to the group chosen for its key. Does not fail where nothing is
    /// sent.
    pub(crate) fn send(&mut self, alloc: Global) -> Result<Sequence<Mail>, OutOfMemory>
        ensures sent { IfOk result (λ mails. request_sent self.old ≡ (self.new, mails)) }
        ensures none { (request_sent self.old).1 ≡ [] → IsOk result }
    {
        let Some((_seq, op)) = self.waiting_request() else {
            return Ok(Sequence::new(alloc));
        };
        let group = self.routes.choose(op.key().pos());
        self.send_to(alloc, group)
    }

    /// Begins the request with this number and sends it, if there is one. Does not fail where
    /// nothing is sent.
    pub(crate) fn start(&mut self, alloc: Global, seq: u32) -> Result<Sequence<Mail>, OutOfMemory>
        requires { 1 ≤ seq }
        ensures sent { IfOk result (λ mails. started seq self.old ≡ (self.new, mails)) }
        ensures none { (started seq self.old).1 ≡ [] → IsOk result }
    {
        if seq as usize <= self.requests.len() {
            self.waiting = Some(seq);
            return self.send(alloc);
        }
        self.waiting = None;
        Ok(Sequence::new(alloc))
    }

    /// Prefers the member after a group's target, and sends the waiting request to it. Does not
    /// fail where nothing is sent.
    pub(crate) fn turn_on(
        &mut self,
        alloc: Global,
        group: Draw,
    ) -> Result<Sequence<Mail>, OutOfMemory>
        ensures sent { IfOk result (λ mails. turned_on group self.old ≡ (self.new, mails)) }
        ensures none { (turned_on group self.old).1 ≡ [] → IsOk result }
    {
        self.routes.after(group);
        self.send_to(alloc, group)
    }

    /// Asks the group that was asked last again, at its next node, where a request waits. Does not
    /// fail where nothing is sent.
    pub(crate) fn tick(&mut self, alloc: Global) -> Result<Sequence<Mail>, OutOfMemory>
        ensures sent { IfOk result
            (λ mails. client_ticked self.old self.old.waiting self.old.asked ≡ (self.new, mails)) }
        ensures none { (client_ticked self.old self.old.waiting self.old.asked).1 ≡ [] →
            IsOk result }
    {
        match (self.waiting, self.asked) {
            (Some(_seq), Some((group, _target))) => self.turn_on(alloc, group),
            _ => Ok(Sequence::new(alloc)),
        }
    }
}
