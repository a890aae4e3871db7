//! Mails, read from their JSON.
ghost use Rattle.std.specs.Prelude.{◌≡◌, List, IfOk, codes};
ghost use Rattle.serde_json.specs.View.{view, items_view};
ghost use Rattle.sc_base.specs.Among.{Each};
ghost use Rattle.sc_mail.specs.declared.bodies.Mail.{Mail};
ghost use Rattle.sc_mail.specs.declared.bodies.MailBody.{MailBody};
ghost use Rattle.sc_json_text.specs.rows.Shapes.{items_json, list_json, variant as variant_json};
ghost use Rattle.sc_json_text.specs.rows.Mails.{mail_body_json, FitsMailBody, mail_json, FitsMail};
ghost use Rattle.sc_json_read.specs.Reading.{Finds, Shows};

use sc_base::Sequence;
use sc_json_read::{FromJson, RowError, four_of, pair_of, triple_of, variant_parts};
use sc_mail::{Mail, MailBody};
use serde_json::Value as Json;
use std::alloc::Global;

fn mail_body_request(alloc: Global, content: &Json) -> Result<MailBody, RowError>
    ensures finds { (group : _) (client : _) (seq : _) (op : _)
        → FitsMailBody (MailBody.Request group client seq op)
        → variant_json (codes "Request") (view content.now)
        ≡ mail_body_json (MailBody.Request group client seq op)
        → Finds (MailBody.Request group client seq op) result }
    ensures exact { IfOk result (λ value.
        variant_json (codes "Request") (view content.now) ≡ mail_body_json value) }
{
    let (client, group, op, seq) = four_of(alloc, content, "client", "group", "op", "seq")?;
    Ok(MailBody::Request {
        group,
        client,
        seq,
        op,
    })
}

fn mail_body_answer(alloc: Global, content: &Json) -> Result<MailBody, RowError>
    ensures finds { (group : _) (seq : _) (answer : _) → FitsMailBody (MailBody.Answer group seq answer)
        → variant_json (codes "Answer") (view content.now)
        ≡ mail_body_json (MailBody.Answer group seq answer)
        → Finds (MailBody.Answer group seq answer) result }
    ensures exact { IfOk result (λ value.
        variant_json (codes "Answer") (view content.now) ≡ mail_body_json value) }
{
    let (answer, group, seq) = triple_of(alloc, content, "answer", "group", "seq")?;
    Ok(MailBody::Answer { group, seq, answer })
}

fn mail_body_prepare(alloc: Global, content: &Json) -> Result<MailBody, RowError>
    ensures finds { (group : _) (ballot : _) (from_slot : _)
        → FitsMailBody (MailBody.Prepare group ballot from_slot)
        → variant_json (codes "Prepare") (view content.now)
        ≡ mail_body_json (MailBody.Prepare group ballot from_slot)
        → Finds (MailBody.Prepare group ballot from_slot) result }
    ensures exact { IfOk result (λ value.
        variant_json (codes "Prepare") (view content.now) ≡ mail_body_json value) }
{
    let (ballot, from_slot, group) = triple_of(alloc, content, "ballot", "from_slot", "group")?;
    Ok(MailBody::Prepare {
        group,
        ballot,
        from_slot,
    })
}

fn mail_body_promise(alloc: Global, content: &Json) -> Result<MailBody, RowError>
    ensures finds { (group : _) (ballot : _) (reports : _)
        → FitsMailBody (MailBody.Promise group ballot reports)
        → variant_json (codes "Promise") (view content.now)
        ≡ mail_body_json (MailBody.Promise group ballot reports)
        → Finds (MailBody.Promise group ballot reports) result }
    ensures exact { IfOk result (λ value.
        variant_json (codes "Promise") (view content.now) ≡ mail_body_json value) }
{
    let (ballot, group, reports) = triple_of(alloc, content, "ballot", "group", "reports")?;
    Ok(MailBody::Promise {
        group,
        ballot,
        reports,
    })
}

fn mail_body_accept(alloc: Global, content: &Json) -> Result<MailBody, RowError>
    ensures finds { (group : _) (ballot : _) (slot : _) (command : _)
        → FitsMailBody (MailBody.Accept group ballot slot command)
        → variant_json (codes "Accept") (view content.now)
        ≡ mail_body_json (MailBody.Accept group ballot slot command)
        → Finds (MailBody.Accept group ballot slot command) result }
    ensures exact { IfOk result (λ value.
        variant_json (codes "Accept") (view content.now) ≡ mail_body_json value) }
{
    let (ballot, command, group, slot) = four_of(
        alloc, content, "ballot", "command", "group", "slot",
    )?;
    Ok(MailBody::Accept {
        group,
        ballot,
        slot,
        command,
    })
}

fn mail_body_accepted(alloc: Global, content: &Json) -> Result<MailBody, RowError>
    ensures finds { (group : _) (ballot : _) (slot : _)
        → FitsMailBody (MailBody.Accepted group ballot slot)
        → variant_json (codes "Accepted") (view content.now)
        ≡ mail_body_json (MailBody.Accepted group ballot slot)
        → Finds (MailBody.Accepted group ballot slot) result }
    ensures exact { IfOk result (λ value.
        variant_json (codes "Accepted") (view content.now) ≡ mail_body_json value) }
{
    let (ballot, group, slot) = triple_of(alloc, content, "ballot", "group", "slot")?;
    Ok(MailBody::Accepted {
        group,
        ballot,
        slot,
    })
}

fn mail_body_nack(alloc: Global, content: &Json) -> Result<MailBody, RowError>
    ensures finds { (group : _) (promised : _) → FitsMailBody (MailBody.Nack group promised)
        → variant_json (codes "Nack") (view content.now)
        ≡ mail_body_json (MailBody.Nack group promised)
        → Finds (MailBody.Nack group promised) result }
    ensures exact { IfOk result (λ value.
        variant_json (codes "Nack") (view content.now) ≡ mail_body_json value) }
{
    let (group, promised) = pair_of(alloc, content, "group", "promised")?;
    Ok(MailBody::Nack { group, promised })
}

fn mail_body_learn(alloc: Global, content: &Json) -> Result<MailBody, RowError>
    ensures finds { (group : _) (slot : _) (command : _)
        → FitsMailBody (MailBody.Learn group slot command)
        → variant_json (codes "Learn") (view content.now)
        ≡ mail_body_json (MailBody.Learn group slot command)
        → Finds (MailBody.Learn group slot command) result }
    ensures exact { IfOk result (λ value.
        variant_json (codes "Learn") (view content.now) ≡ mail_body_json value) }
{
    let (command, group, slot) = triple_of(alloc, content, "command", "group", "slot")?;
    Ok(MailBody::Learn {
        group,
        slot,
        command,
    })
}

fn mail_body_ask(alloc: Global, content: &Json) -> Result<MailBody, RowError>
    ensures finds { (group : _) (from_slot : _) → FitsMailBody (MailBody.Ask group from_slot)
        → variant_json (codes "Ask") (view content.now)
        ≡ mail_body_json (MailBody.Ask group from_slot)
        → Finds (MailBody.Ask group from_slot) result }
    ensures exact { IfOk result (λ value.
        variant_json (codes "Ask") (view content.now) ≡ mail_body_json value) }
{
    let (from_slot, group) = pair_of(alloc, content, "from_slot", "group")?;
    Ok(MailBody::Ask { group, from_slot })
}

fn mail_body_install(alloc: Global, content: &Json) -> Result<MailBody, RowError>
    ensures finds { (group : _) (slot : _) (base : _) (sets : _)
        → FitsMailBody (MailBody.Install group slot base sets)
        → variant_json (codes "Install") (view content.now)
        ≡ mail_body_json (MailBody.Install group slot base sets)
        → Finds (MailBody.Install group slot base sets) result }
    ensures exact { IfOk result (λ value.
        variant_json (codes "Install") (view content.now) ≡ mail_body_json value) }
{
    let (base, group, sets, slot) = four_of(alloc, content, "base", "group", "sets", "slot")?;
    Ok(MailBody::Install {
        group,
        slot,
        base,
        sets,
    })
}

fn mail_body_tx_prepare(alloc: Global, content: &Json) -> Result<MailBody, RowError>
    ensures finds { (tx : _) (offer : _) → FitsMailBody (MailBody.TxPrepare tx offer)
        → variant_json (codes "TxPrepare") (view content.now)
        ≡ mail_body_json (MailBody.TxPrepare tx offer)
        → Finds (MailBody.TxPrepare tx offer) result }
    ensures exact { IfOk result (λ value.
        variant_json (codes "TxPrepare") (view content.now) ≡ mail_body_json value) }
{
    let (offer, tx) = pair_of(alloc, content, "offer", "tx")?;
    Ok(MailBody::TxPrepare { tx, offer })
}

fn mail_body_tx_vote(alloc: Global, content: &Json) -> Result<MailBody, RowError>
    ensures finds { (tx : _) (coord : _) (part : _) (vote : _)
        → FitsMailBody (MailBody.TxVote tx coord part vote)
        → variant_json (codes "TxVote") (view content.now)
        ≡ mail_body_json (MailBody.TxVote tx coord part vote)
        → Finds (MailBody.TxVote tx coord part vote) result }
    ensures exact { IfOk result (λ value.
        variant_json (codes "TxVote") (view content.now) ≡ mail_body_json value) }
{
    let (coord, part, tx, vote) = four_of(alloc, content, "coord", "part", "tx", "vote")?;
    Ok(MailBody::TxVote {
        tx,
        coord,
        part,
        vote,
    })
}

fn mail_body_tx_outcome(alloc: Global, content: &Json) -> Result<MailBody, RowError>
    ensures finds { (tx : _) (part : _) (outcome : _) → FitsMailBody (MailBody.TxOutcome tx part outcome)
        → variant_json (codes "TxOutcome") (view content.now)
        ≡ mail_body_json (MailBody.TxOutcome tx part outcome)
        → Finds (MailBody.TxOutcome tx part outcome) result }
    ensures exact { IfOk result (λ value.
        variant_json (codes "TxOutcome") (view content.now) ≡ mail_body_json value) }
{
    let (outcome, part, tx) = triple_of(alloc, content, "outcome", "part", "tx")?;
    Ok(MailBody::TxOutcome { tx, part, outcome })
}

fn mail_body_tx_elsewhere(alloc: Global, content: &Json) -> Result<MailBody, RowError>
    ensures finds { (tx : _) (coord : _) (hint : _) → FitsMailBody (MailBody.TxElsewhere tx coord hint)
        → variant_json (codes "TxElsewhere") (view content.now)
        ≡ mail_body_json (MailBody.TxElsewhere tx coord hint)
        → Finds (MailBody.TxElsewhere tx coord hint) result }
    ensures exact { IfOk result (λ value.
        variant_json (codes "TxElsewhere") (view content.now) ≡ mail_body_json value) }
{
    let (coord, hint, tx) = triple_of(alloc, content, "coord", "hint", "tx")?;
    Ok(MailBody::TxElsewhere { tx, coord, hint })
}

fn mail_body_tx_watch(alloc: Global, content: &Json) -> Result<MailBody, RowError>
    ensures finds { (tx : _) (watch : _) → FitsMailBody (MailBody.TxWatch tx watch)
        → variant_json (codes "TxWatch") (view content.now)
        ≡ mail_body_json (MailBody.TxWatch tx watch)
        → Finds (MailBody.TxWatch tx watch) result }
    ensures exact { IfOk result (λ value.
        variant_json (codes "TxWatch") (view content.now) ≡ mail_body_json value) }
{
    let (tx, watch) = pair_of(alloc, content, "tx", "watch")?;
    Ok(MailBody::TxWatch { tx, watch })
}

fn mail_body_tx_watched(alloc: Global, content: &Json) -> Result<MailBody, RowError>
    ensures finds { (tx : _) (coord : _) (part : _) (vote : _)
        → FitsMailBody (MailBody.TxWatched tx coord part vote)
        → variant_json (codes "TxWatched") (view content.now)
        ≡ mail_body_json (MailBody.TxWatched tx coord part vote)
        → Finds (MailBody.TxWatched tx coord part vote) result }
    ensures exact { IfOk result (λ value.
        variant_json (codes "TxWatched") (view content.now) ≡ mail_body_json value) }
{
    let (coord, part, tx, vote) = four_of(alloc, content, "coord", "part", "tx", "vote")?;
    Ok(MailBody::TxWatched {
        tx,
        coord,
        part,
        vote,
    })
}

fn mail_body_told(alloc: Global, content: &Json) -> Result<MailBody, RowError>
    ensures finds { (order : _) (outcome : _) → FitsMailBody (MailBody.Told order outcome)
        → variant_json (codes "Told") (view content.now)
        ≡ mail_body_json (MailBody.Told order outcome)
        → Finds (MailBody.Told order outcome) result }
    ensures exact { IfOk result (λ value.
        variant_json (codes "Told") (view content.now) ≡ mail_body_json value) }
{
    let (order, result) = pair_of(alloc, content, "order", "result")?;
    Ok(MailBody::Told { order, result })
}

/// Returns the body of a mail that has this JSON.
fn mail_body_from_json(alloc: Global, json: &Json) -> Result<MailBody, RowError>
    ensures finds { (body : MailBody) → FitsMailBody body → view json.now ≡ mail_body_json body
        → Finds body result }
    ensures exact { IfOk result (λ body. view json.now ≡ mail_body_json body) }
{
    let Some((name, content)) = variant_parts(json) else {
        return Err(RowError::NoRow);
    };
    match name {
        "Request" => mail_body_request(alloc, content),
        "Answer" => mail_body_answer(alloc, content),
        "Prepare" => mail_body_prepare(alloc, content),
        "Promise" => mail_body_promise(alloc, content),
        "Accept" => mail_body_accept(alloc, content),
        "Accepted" => mail_body_accepted(alloc, content),
        "Nack" => mail_body_nack(alloc, content),
        "Learn" => mail_body_learn(alloc, content),
        "Ask" => mail_body_ask(alloc, content),
        "Install" => mail_body_install(alloc, content),
        "TxPrepare" => mail_body_tx_prepare(alloc, content),
        "TxVote" => mail_body_tx_vote(alloc, content),
        "TxOutcome" => mail_body_tx_outcome(alloc, content),
        "TxElsewhere" => mail_body_tx_elsewhere(alloc, content),
        "TxWatch" => mail_body_tx_watch(alloc, content),
        "TxWatched" => mail_body_tx_watched(alloc, content),
        "Told" => mail_body_told(alloc, content),
        _ => Err(RowError::NoRow),
    }
}

/// The body of a mail, as a member of the mail's JSON.
#[derive(Drop)]
struct Said {
    body: MailBody,
}

impl FromJson for Said {
    ghost json_of = { λ said. mail_body_json said.body };

    ghost Fits = { λ said. FitsMailBody said.body };

    fn from_json(alloc: Global, json: &Json) -> Result<Said, RowError> {
        let body = mail_body_from_json(alloc, json)?;
        Ok(Said { body })
    }
}

/// Returns the mail that has this JSON.
fn mail_from_json(alloc: Global, json: &Json) -> Result<Mail, RowError>
    ensures finds { (mail : Mail) → FitsMail mail → view json.now ≡ mail_json mail
        → Finds mail result }
    ensures exact { IfOk result (λ mail. view json.now ≡ mail_json mail) }
{
    let (said, from, to): (Said, _, _) = triple_of(alloc, json, "body", "from", "to")?;
    Ok(Mail {
        from,
        to,
        body: said.body,
    })
}

/// Returns the mails that have these JSONs.
fn mails_of(alloc: Global, list: &[Json]) -> Result<Vec<Mail>, RowError>
    ensures finds { (mails : List Mail) → Each FitsMail mails
        → items_view list.now ≡ items_json mail_json mails
        → Shows (λ found. found.items) mails result }
    ensures exact { IfOk result (λ found. items_view list.now ≡ items_json mail_json found.items) }
{
    let mut mails = Vec::new(alloc);
    for json in list {
        let mail = mail_from_json(alloc, json)?;
        mails.push(mail)?;
    }
    Ok(mails)
}

/// Returns the mails of which the JSON is an array.
#[tactic(auto, using(sc_json_read::proofs::Arrays::is_array))]
pub(crate) fn mails_from_json(alloc: Global, json: &Json) -> Result<Sequence<Mail>, RowError>
    ensures finds { (mails : List Mail) → Each FitsMail mails
        → view json.now ≡ list_json mail_json mails → Finds mails result }
    ensures exact { IfOk result (λ mails. view json.now ≡ list_json mail_json mails) }
{
    match json.as_array() {
        Some(list) => {
            let mails = mails_of(alloc, list.as_slice())?;
            Ok(Sequence::from_vec(mails))
        }
        None => Err(RowError::NoRow),
    }
}
