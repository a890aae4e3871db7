//! How a client acts on answers.
ghost use Rattle.std.specs.Prelude.{◌≡◌, ℕ, ◌+◌, ◌++◌, ◌∷◌, [], false, Option, Some, IfOk, IsOk};
ghost use Rattle.sc_base.specs.declared.names.Draw.{Draw};
ghost use Rattle.sc_mail.specs.declared.bodies.AnswerBody.{AnswerBody};
ghost use Rattle.sc_mail.specs.declared.bodies.AnswerBody.TheVariants.{NotLeader};
ghost use Rattle.sc_mail.specs.declared.bodies.MailBody.TheVariants.{Answer};
ghost use Rattle.sc_client_table.specs.table.Table.{answer_taken, got, started, redirected, was_asked, waits_for};

use crate::client::ClientCore;
use sc_base::{Draw, Dup, OutOfMemory, Reply, Sequence, same_draw};
use sc_mail::{AnswerBody, Mail, MailBody};
use std::alloc::Global;

impl ClientCore {
    /// Acts on a mail. A mail that is no answer to the waiting request is ignored, and then the
    /// call does not fail.
    pub(crate) fn got(&mut self, alloc: Global, mail: &Mail) -> Result<Sequence<Mail>, OutOfMemory>
        ensures sent { IfOk result
            (λ mails. got mail.now.from mail.now.body self.old ≡ (self.new, mails)) }
        ensures ignored { ((group : Draw) (seq : ℕ) (answer : AnswerBody) →
            mail.now.body ≡ Answer group seq answer → waits_for self.old.waiting seq ≡ false) →
            IsOk result }
    {
        match &mail.body {
            MailBody::Answer { group, seq, answer } if self.waits_for(*seq) => {
                self.answered(alloc, mail.from, *group, *seq, answer)
            }
            _ => Ok(Sequence::new(alloc)),
        }
    }

    /// Returns whether a number is that of the waiting request.
    fn waits_for(&self, seq: u32) -> bool
        ensures { result ≡ waits_for self.now.waiting seq }
    {
        match self.waiting {
            Some(number) => number == seq,
            None => false,
        }
    }

    /// Returns whether this node and this group were asked last.
    fn was_asked(&self, from: u32, group: Draw) -> bool
        ensures { result ≡ was_asked self.now.asked from group }
    {
        match self.asked {
            Some((asked, target)) => target as u32 == from && same_draw(asked, group),
            None => false,
        }
    }
}

impl ClientCore {
    /// Acts on an answer to the waiting request.
    fn answered(
        &mut self,
        alloc: Global,
        from: u32,
        group: Draw,
        seq: u32,
        answer: &AnswerBody,
    ) -> Result<Sequence<Mail>, OutOfMemory>
        requires { self.old.waiting ≡ Some seq }
        ensures { IfOk result
            (λ mails. answer_taken from group seq answer.now self.old ≡ (self.new, mails)) }
    {
        match answer {
            AnswerBody::Value(reply) => self.replied(alloc, seq, reply),
            _ => {
                if self.was_asked(from, group) {
                    self.redirected(alloc, group, answer)
                } else {
                    Ok(Sequence::new(alloc))
                }
            }
        }
    }

    /// Keeps the reply, and sends the next request, if there is one.
    fn replied(
        &mut self,
        alloc: Global,
        seq: u32,
        reply: &Reply,
    ) -> Result<Sequence<Mail>, OutOfMemory>
        requires { self.old.waiting ≡ Some seq }
        ensures { IfOk result
            (λ mails.
            started (seq + 1) (record self.old { replies = self.old.replies ++ reply.now ∷ [] })
            ≡ (self.new, mails)) }
    {
        self.replies.push(reply.dup(alloc)?)?;
        self.start(alloc, seq + 1)
    }

    /// Follows an answer, other than a reply, of the node that was asked. Memory is allocated only
    /// for the request that is sent again, and for a group that becomes known.
    fn redirected(
        &mut self,
        alloc: Global,
        group: Draw,
        answer: &AnswerBody,
    ) -> Result<Sequence<Mail>, OutOfMemory>
        ensures sent { IfOk result
            (λ mails. redirected group answer.now self.old ≡ (self.new, mails)) }
        ensures none { (hint : Option ℕ) → answer.now ≡ NotLeader hint →
            (redirected group answer.now self.old).1 ≡ [] → IsOk result }
    {
        match answer {
            AnswerBody::NotLeader { hint: Some(node) } => {
                self.routes.prefer(group, *node);
                self.send_to(alloc, group)
            }
            AnswerBody::NotLeader { hint: None } => self.turn_on(alloc, group),
            AnswerBody::NotMine { arc, succ } => {
                self.routes.not_mine(group, arc, succ)?;
                self.send(alloc)
            }
            AnswerBody::Gone { into } => {
                self.routes.gone(group, into)?;
                self.send(alloc)
            }
            AnswerBody::Value(_) | AnswerBody::Stale { .. } => Ok(Sequence::new(alloc)),
        }
    }
}
