//! Bodies of mails, read from their texts: requests, answers to clients, and the mail of Paxos.
ghost use Rattle.std.specs.Prelude.{IfSome};
ghost use Rattle.sc_json_text.specs.rows.Answers.{answer_body_json, FitsAnswerBody};
ghost use Rattle.sc_json_text.specs.rows.Mails.{mail_body_json, FitsMailBody};
ghost use Rattle.sc_json_fast.specs.Prefixes.{TextBegins};

use crate::from_text::FromText;
use crate::parts::{four_of, one_of, three_of, two_of};
use sc_mail::{AnswerBody, MailBody};
use std::alloc::Global;

fn answer_value(alloc: Global, bytes: &[u8]) -> Option<(AnswerBody, &[u8])>
    ensures { IfSome result
        (λ found. TextBegins answer_body_json FitsAnswerBody bytes.now found.0 found.1.now) }
{
    let (content, rest) = one_of(alloc, bytes, br#"{"Value":"#, b"}")?;
    Some((AnswerBody::Value(content), rest))
}

fn answer_not_leader(alloc: Global, bytes: &[u8]) -> Option<(AnswerBody, &[u8])>
    ensures { IfSome result
        (λ found. TextBegins answer_body_json FitsAnswerBody bytes.now found.0 found.1.now) }
{
    let (hint, rest) = one_of(alloc, bytes, br#"{"NotLeader":{"hint":"#, b"}}")?;
    Some((AnswerBody::NotLeader { hint }, rest))
}

fn answer_stale(alloc: Global, bytes: &[u8]) -> Option<(AnswerBody, &[u8])>
    ensures { IfSome result
        (λ found. TextBegins answer_body_json FitsAnswerBody bytes.now found.0 found.1.now) }
{
    let (last, rest) = one_of(alloc, bytes, br#"{"Stale":{"last":"#, b"}}")?;
    Some((AnswerBody::Stale { last }, rest))
}

impl FromText for AnswerBody {
    ghost json_of = { answer_body_json };

    ghost Fits = { FitsAnswerBody };

    fn take(alloc: Global, bytes: &[u8]) -> Option<(AnswerBody, &[u8])> {
        if let Some(found) = answer_value(alloc, bytes) {
            return Some(found);
        }
        if let Some(found) = answer_not_leader(alloc, bytes) {
            return Some(found);
        }
        answer_stale(alloc, bytes)
    }
}

fn body_request(alloc: Global, bytes: &[u8]) -> Option<(MailBody, &[u8])>
    ensures { IfSome result
        (λ found. TextBegins mail_body_json FitsMailBody bytes.now found.0 found.1.now) }
{
    let (client, group, op, seq, rest) = four_of(
        alloc,
        bytes,
        br#"{"Request":{"client":"#,
        br#","group":"#,
        br#","op":"#,
        br#","seq":"#,
        b"}}",
    )?;
    Some((
        MailBody::Request {
            group,
            client,
            seq,
            op,
        },
        rest,
    ))
}

fn body_answer(alloc: Global, bytes: &[u8]) -> Option<(MailBody, &[u8])>
    ensures { IfSome result
        (λ found. TextBegins mail_body_json FitsMailBody bytes.now found.0 found.1.now) }
{
    let (answer, group, seq, rest) = three_of(
        alloc,
        bytes,
        br#"{"Answer":{"answer":"#,
        br#","group":"#,
        br#","seq":"#,
        b"}}",
    )?;
    Some((MailBody::Answer { group, seq, answer }, rest))
}

fn body_prepare(alloc: Global, bytes: &[u8]) -> Option<(MailBody, &[u8])>
    ensures { IfSome result
        (λ found. TextBegins mail_body_json FitsMailBody bytes.now found.0 found.1.now) }
{
    let (ballot, from_slot, group, rest) = three_of(
        alloc,
        bytes,
        br#"{"Prepare":{"ballot":"#,
        br#","from_slot":"#,
        br#","group":"#,
        b"}}",
    )?;
    Some((
        MailBody::Prepare {
            group,
            ballot,
            from_slot,
        },
        rest,
    ))
}

fn body_promise(alloc: Global, bytes: &[u8]) -> Option<(MailBody, &[u8])>
    ensures { IfSome result
        (λ found. TextBegins mail_body_json FitsMailBody bytes.now found.0 found.1.now) }
{
    let (ballot, group, reports, rest) = three_of(
        alloc,
        bytes,
        br#"{"Promise":{"ballot":"#,
        br#","group":"#,
        br#","reports":"#,
        b"}}",
    )?;
    Some((
        MailBody::Promise {
            group,
            ballot,
            reports,
        },
        rest,
    ))
}

fn body_accept(alloc: Global, bytes: &[u8]) -> Option<(MailBody, &[u8])>
    ensures { IfSome result
        (λ found. TextBegins mail_body_json FitsMailBody bytes.now found.0 found.1.now) }
{
    let (ballot, command, group, slot, rest) = four_of(
        alloc,
        bytes,
        br#"{"Accept":{"ballot":"#,
        br#","command":"#,
        br#","group":"#,
        br#","slot":"#,
        b"}}",
    )?;
    Some((
        MailBody::Accept {
            group,
            ballot,
            slot,
            command,
        },
        rest,
    ))
}

fn body_accepted(alloc: Global, bytes: &[u8]) -> Option<(MailBody, &[u8])>
    ensures { IfSome result
        (λ found. TextBegins mail_body_json FitsMailBody bytes.now found.0 found.1.now) }
{
    let (ballot, group, slot, rest) = three_of(
        alloc,
        bytes,
        br#"{"Accepted":{"ballot":"#,
        br#","group":"#,
        br#","slot":"#,
        b"}}",
    )?;
    Some((
        MailBody::Accepted {
            group,
            ballot,
            slot,
        },
        rest,
    ))
}

fn body_nack(alloc: Global, bytes: &[u8]) -> Option<(MailBody, &[u8])>
    ensures { IfSome result
        (λ found. TextBegins mail_body_json FitsMailBody bytes.now found.0 found.1.now) }
{
    let (group, promised, rest) = two_of(
        alloc,
        bytes,
        br#"{"Nack":{"group":"#,
        br#","promised":"#,
        b"}}",
    )?;
    Some((MailBody::Nack { group, promised }, rest))
}

fn body_learn(alloc: Global, bytes: &[u8]) -> Option<(MailBody, &[u8])>
    ensures { IfSome result
        (λ found. TextBegins mail_body_json FitsMailBody bytes.now found.0 found.1.now) }
{
    let (command, group, slot, rest) = three_of(
        alloc,
        bytes,
        br#"{"Learn":{"command":"#,
        br#","group":"#,
        br#","slot":"#,
        b"}}",
    )?;
    Some((
        MailBody::Learn {
            group,
            slot,
            command,
        },
        rest,
    ))
}

fn body_ask(alloc: Global, bytes: &[u8]) -> Option<(MailBody, &[u8])>
    ensures { IfSome result
        (λ found. TextBegins mail_body_json FitsMailBody bytes.now found.0 found.1.now) }
{
    let (from_slot, group, rest) = two_of(
        alloc,
        bytes,
        br#"{"Ask":{"from_slot":"#,
        br#","group":"#,
        b"}}",
    )?;
    Some((MailBody::Ask { group, from_slot }, rest))
}

impl FromText for MailBody {
    ghost json_of = { mail_body_json };

    ghost Fits = { FitsMailBody };

    fn take(alloc: Global, bytes: &[u8]) -> Option<(MailBody, &[u8])> {
        if let Some(found) = body_request(alloc, bytes) {
            return Some(found);
        }
        if let Some(found) = body_answer(alloc, bytes) {
            return Some(found);
        }
        if let Some(found) = body_prepare(alloc, bytes) {
            return Some(found);
        }
        if let Some(found) = body_accept(alloc, bytes) {
            return Some(found);
        }
        if let Some(found) = body_accepted(alloc, bytes) {
            return Some(found);
        }
        if let Some(found) = body_nack(alloc, bytes) {
            return Some(found);
        }
        if let Some(found) = body_learn(alloc, bytes) {
            return Some(found);
        }
        if let Some(found) = body_ask(alloc, bytes) {
            return Some(found);
        }
        body_promise(alloc, bytes)
    }
}
