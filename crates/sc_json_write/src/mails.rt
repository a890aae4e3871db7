//! Mails, written as JSON.
ghost use Rattle.std.specs.Prelude.{◌≡◌, IfOk, OnOk};
ghost use Rattle.serde_json.specs.View.{view};
ghost use Rattle.sc_json_write.specs.Topics.{topic, Asked, Promised, Valued, Lacked, Voted, Decided};
ghost use Rattle.sc_json_text.specs.rows.Mails.{mail_body_json, FitsMailBody};
ghost use Rattle.sc_json_text.specs.rows.Mails.{mail_json, FitsMail};

use crate::to_json::ToJson;
use crate::writing::{three, variant_four, variant_three, variant_two};
use sc_base::OutOfMemory;
use sc_mail::{Mail, MailBody};
use serde_json::Value as Json;
use std::alloc::Global;

// Returns the JSON of a request, an answer or the result of an order.
#[tactic(auto, unfolding(crate::specs::Json::mail_body_json, crate::specs::Json::FitsMailBody))]
fn asked_json(alloc: Global, body: &MailBody) -> Result<Json, OutOfMemory>
    requires { topic body.now ≡ Asked }
    ensures json { IfOk result (λ json. view json ≡ mail_body_json body.now) }
    ensures fits { OnOk result (FitsMailBody body.now) }
{
    match body {
        MailBody::Request {
            group,
            client,
            seq,
            op,
        } => variant_four(
            alloc,
            "Request",
            ("client", client),
            ("group", group),
            ("op", op),
            ("seq", seq),
        ),
        MailBody::Answer { group, seq, answer } => variant_three(
            alloc,
            "Answer",
            ("answer", answer),
            ("group", group),
            ("seq", seq),
        ),
        MailBody::Told { order, result } => variant_two(
            alloc,
            "Told",
            ("order", order),
            ("result", result),
        ),
        _ => unreachable!(),
    }
}

// Returns the JSON of the prepare, the promise or the refusal of a ballot.
#[tactic(auto, unfolding(crate::specs::Json::mail_body_json, crate::specs::Json::FitsMailBody))]
fn promised_json(alloc: Global, body: &MailBody) -> Result<Json, OutOfMemory>
    requires { topic body.now ≡ Promised }
    ensures json { IfOk result (λ json. view json ≡ mail_body_json body.now) }
    ensures fits { OnOk result (FitsMailBody body.now) }
{
    match body {
        MailBody::Prepare {
            group,
            ballot,
            from_slot,
        } => variant_three(
            alloc,
            "Prepare",
            ("ballot", ballot),
            ("from_slot", from_slot),
            ("group", group),
        ),
        MailBody::Promise {
            group,
            ballot,
            reports,
        } => variant_three(
            alloc,
            "Promise",
            ("ballot", ballot),
            ("group", group),
            ("reports", reports),
        ),
        MailBody::Nack { group, promised } => variant_two(
            alloc,
            "Nack",
            ("group", group),
            ("promised", promised),
        ),
        _ => unreachable!(),
    }
}

// Returns the JSON of a mail about the value of a slot.
#[tactic(auto, unfolding(crate::specs::Json::mail_body_json, crate::specs::Json::FitsMailBody))]
fn valued_json(alloc: Global, body: &MailBody) -> Result<Json, OutOfMemory>
    requires { topic body.now ≡ Valued }
    ensures json { IfOk result (λ json. view json ≡ mail_body_json body.now) }
    ensures fits { OnOk result (FitsMailBody body.now) }
{
    match body {
        MailBody::Accept {
            group,
            ballot,
            slot,
            command,
        } => variant_four(
            alloc,
            "Accept",
            ("ballot", ballot),
            ("command", command),
            ("group", group),
            ("slot", slot),
        ),
        MailBody::Accepted {
            group,
            ballot,
            slot,
        } => variant_three(
            alloc,
            "Accepted",
            ("ballot", ballot),
            ("group", group),
            ("slot", slot),
        ),
        MailBody::Learn {
            group,
            slot,
            command,
        } => variant_three(
            alloc,
            "Learn",
            ("command", command),
            ("group", group),
            ("slot", slot),
        ),
        _ => unreachable!(),
    }
}

// Returns the JSON of a mail by which a member asks for what it lacks, or gets a state.
#[tactic(auto, unfolding(crate::specs::Json::mail_body_json, crate::specs::Json::FitsMailBody))]
fn lacked_json(alloc: Global, body: &MailBody) -> Result<Json, OutOfMemory>
    requires { topic body.now ≡ Lacked }
    ensures json { IfOk result (λ json. view json ≡ mail_body_json body.now) }
    ensures fits { OnOk result (FitsMailBody body.now) }
{
    match body {
        MailBody::Ask { group, from_slot } => variant_two(
            alloc,
            "Ask",
            ("from_slot", from_slot),
            ("group", group),
        ),
        MailBody::Install {
            group,
            slot,
            base,
            sets,
        } => variant_four(
            alloc,
            "Install",
            ("base", base),
            ("group", group),
            ("sets", sets),
            ("slot", slot),
        ),
        _ => unreachable!(),
    }
}

// Returns the JSON of a question or a vote of a transaction.
#[tactic(auto, unfolding(crate::specs::Json::mail_body_json, crate::specs::Json::FitsMailBody))]
fn voted_json(alloc: Global, body: &MailBody) -> Result<Json, OutOfMemory>
    requires { topic body.now ≡ Voted }
    ensures json { IfOk result (λ json. view json ≡ mail_body_json body.now) }
    ensures fits { OnOk result (FitsMailBody body.now) }
{
    match body {
        MailBody::TxPrepare { tx, offer } => variant_two(
            alloc,
            "TxPrepare",
            ("offer", offer),
            ("tx", tx),
        ),
        MailBody::TxVote {
            tx,
            coord,
            part,
            vote,
        } => variant_four(
            alloc,
            "TxVote",
            ("coord", coord),
            ("part", part),
            ("tx", tx),
            ("vote", vote),
        ),
        MailBody::TxElsewhere { tx, coord, hint } => variant_three(
            alloc,
            "TxElsewhere",
            ("coord", coord),
            ("hint", hint),
            ("tx", tx),
        ),
        _ => unreachable!(),
    }
}

// Returns the JSON of the outcome of a transaction, or of a watcher's question or answer.
#[tactic(auto, unfolding(crate::specs::Json::mail_body_json, crate::specs::Json::FitsMailBody))]
fn decided_json(alloc: Global, body: &MailBody) -> Result<Json, OutOfMemory>
    requires { topic body.now ≡ Decided }
    ensures json { IfOk result (λ json. view json ≡ mail_body_json body.now) }
    ensures fits { OnOk result (FitsMailBody body.now) }
{
    match body {
        MailBody::TxOutcome { tx, part, outcome } => variant_three(
            alloc,
            "TxOutcome",
            ("outcome", outcome),
            ("part", part),
            ("tx", tx),
        ),
        MailBody::TxWatch { tx, watch } => variant_two(
            alloc,
            "TxWatch",
            ("tx", tx),
            ("watch", watch),
        ),
        MailBody::TxWatched {
            tx,
            coord,
            part,
            vote,
        } => variant_four(
            alloc,
            "TxWatched",
            ("coord", coord),
            ("part", part),
            ("tx", tx),
            ("vote", vote),
        ),
        _ => unreachable!(),
    }
}

impl ToJson for MailBody {
    ghost json_of = { mail_body_json };

    ghost Fits = { FitsMailBody };

    fn to_json(&self, alloc: Global) -> Result<Json, OutOfMemory> {
        match self {
            MailBody::Request { .. } | MailBody::Answer { .. } | MailBody::Told { .. } =>
                asked_json(alloc, self),
            MailBody::Prepare { .. } | MailBody::Promise { .. } | MailBody::Nack { .. } =>
                promised_json(alloc, self),
            MailBody::Accept { .. } | MailBody::Accepted { .. } | MailBody::Learn { .. } =>
                valued_json(alloc, self),
            MailBody::Ask { .. } | MailBody::Install { .. } => lacked_json(alloc, self),
            MailBody::TxPrepare { .. } | MailBody::TxVote { .. } | MailBody::TxElsewhere { .. } =>
                voted_json(alloc, self),
            MailBody::TxOutcome { .. } | MailBody::TxWatch { .. } | MailBody::TxWatched { .. } =>
                decided_json(alloc, self),
        }
    }
}

impl ToJson for Mail {
    ghost json_of = { mail_json };

    ghost Fits = { FitsMail };

    #[tactic(auto, unfolding(crate::specs::Json::mail_json, crate::specs::Json::FitsMail))]
    fn to_json(&self, alloc: Global) -> Result<Json, OutOfMemory> {
        three(
            alloc,
            ("body", &self.body),
            ("from", &self.from),
            ("to", &self.to),
        )
    }
}
