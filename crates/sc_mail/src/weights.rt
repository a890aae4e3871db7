//! The weight of a mail in counted bytes.
ghost use Rattle.std.specs.Prelude.{◌≡◌};
ghost use Rattle.std.specs.List.{sum_by};
ghost use Rattle.sc_words.specs.commands.Weight.{capped};
ghost use Rattle.sc_mail.specs.Weight.{answer_weight, report_weight, body_weight};

use crate::bodies::{AnswerBody, Mail, MailBody, Reports};
use sc_actor::Parcel;
use sc_words::{base_weight, command_weight, op_weight, outcome_weight, reply_weight, vote_weight};

fn answer_weight(answer: &AnswerBody) -> u64
    ensures { result ≡ answer_weight answer.now }
{
    match answer {
        AnswerBody::Value(reply) => reply_weight(reply),
        AnswerBody::NotLeader { .. }
        | AnswerBody::NotMine { .. }
        | AnswerBody::Gone { .. }
        | AnswerBody::Stale { .. } => 0,
    }
}

fn reports_weight(reports: &Reports) -> u64
    ensures { result ≡ capped (sum_by report_weight reports.now) }
{
    let mut total = 0u64;
    for report in reports.as_slice() {
        total = total
            .saturating_add(32)
            .saturating_add(command_weight(&report.value));
    }
    total
}

fn body_weight(body: &MailBody) -> u64
    ensures { result ≡ capped (body_weight body.now) }
{
    match body {
        MailBody::Request { op, .. } => op_weight(op),
        MailBody::Answer { answer, .. } => answer_weight(answer),
        MailBody::Promise { reports, .. } => reports_weight(reports),
        MailBody::Accept { command, .. } | MailBody::Learn { command, .. } => command_weight(
            command,
        ),
        MailBody::Install { base, .. } => base_weight(base.get()),
        MailBody::TxVote { vote, .. } => vote_weight(vote),
        MailBody::TxOutcome { outcome, .. } => outcome_weight(outcome),
        MailBody::Prepare { .. }
        | MailBody::Accepted { .. }
        | MailBody::Nack { .. }
        | MailBody::Ask { .. }
        | MailBody::TxPrepare { .. }
        | MailBody::TxElsewhere { .. }
        | MailBody::TxWatch { .. }
        | MailBody::TxWatched { .. }
        | MailBody::Told { .. } => 0,
    }
}

impl Parcel for Mail {
    ghost receiver = { λ mail. mail.to };

    ghost weighs = { λ mail. body_weight mail.body };

    fn to(&self) -> u32 {
        self.to
    }

    fn weight(&self) -> u64 {
        body_weight(&self.body)
    }
}
