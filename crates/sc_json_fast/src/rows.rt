//! Rows and their events, read from their texts.
ghost use Rattle.std.specs.Prelude.{◌≡◌, IfSome};
ghost use Rattle.sc_actor.specs.declared.rows.Row.{Row};
ghost use Rattle.sc_words.specs.declared.commands.orders.OrderLine.{OrderLine};
ghost use Rattle.sc_mail.specs.declared.bodies.Mail.{Mail};
ghost use Rattle.sc_json_text.specs.rows.Rows.{event_json, FitsEvent, row_json, FitsRow};
ghost use Rattle.sc_json_text.specs.rows.RowText.{text_of, IsHeld};
ghost use Rattle.sc_json_fast.specs.Prefixes.{TextBegins};

use crate::from_text::FromText;
use crate::parts::{one_of, three_of};
use crate::words::behind;
use sc_actor::{Event, Row};
use sc_json_text::row_texts_read_back;
use sc_mail::Mail;
use sc_words::OrderLine;
use std::alloc::Global;

fn event_deliver(alloc: Global, bytes: &[u8]) -> Option<(Event<OrderLine>, &[u8])>
    ensures { IfSome result
        (λ found. TextBegins event_json FitsEvent bytes.now found.0 found.1.now) }
{
    let (content, rest) = one_of(alloc, bytes, br#"{"Deliver":"#, b"}")?;
    Some((Event::Deliver(content), rest))
}

fn event_tick(bytes: &[u8]) -> Option<(Event<OrderLine>, &[u8])>
    ensures { IfSome result
        (λ found. TextBegins event_json FitsEvent bytes.now found.0 found.1.now) }
{
    let rest = behind(bytes, br#""Tick""#)?;
    Some((Event::Tick, rest))
}

fn event_go(bytes: &[u8]) -> Option<(Event<OrderLine>, &[u8])>
    ensures { IfSome result
        (λ found. TextBegins event_json FitsEvent bytes.now found.0 found.1.now) }
{
    let rest = behind(bytes, br#""Go""#)?;
    Some((Event::Go, rest))
}

fn event_crash(bytes: &[u8]) -> Option<(Event<OrderLine>, &[u8])>
    ensures { IfSome result
        (λ found. TextBegins event_json FitsEvent bytes.now found.0 found.1.now) }
{
    let rest = behind(bytes, br#""Crash""#)?;
    Some((Event::Crash, rest))
}

fn event_drop(alloc: Global, bytes: &[u8]) -> Option<(Event<OrderLine>, &[u8])>
    ensures { IfSome result
        (λ found. TextBegins event_json FitsEvent bytes.now found.0 found.1.now) }
{
    let (content, rest) = one_of(alloc, bytes, br#"{"Drop":"#, b"}")?;
    Some((Event::Drop(content), rest))
}

fn event_again(alloc: Global, bytes: &[u8]) -> Option<(Event<OrderLine>, &[u8])>
    ensures { IfSome result
        (λ found. TextBegins event_json FitsEvent bytes.now found.0 found.1.now) }
{
    let (content, rest) = one_of(alloc, bytes, br#"{"Again":"#, b"}")?;
    Some((Event::Again(content), rest))
}

impl FromText for Event<OrderLine> {
    ghost json_of = { event_json };

    ghost Fits = { FitsEvent };

    fn take(alloc: Global, bytes: &[u8]) -> Option<(Event<OrderLine>, &[u8])> {
        if let Some(found) = event_deliver(alloc, bytes) {
            return Some(found);
        }
        if let Some(found) = event_tick(bytes) {
            return Some(found);
        }
        if let Some(found) = event_go(bytes) {
            return Some(found);
        }
        if let Some(found) = event_crash(bytes) {
            return Some(found);
        }
        if let Some(found) = event_drop(alloc, bytes) {
            return Some(found);
        }
        event_again(alloc, bytes)
    }
}

impl FromText for Row<Mail, OrderLine> {
    ghost json_of = { row_json };

    ghost Fits = { FitsRow };

    fn take(alloc: Global, bytes: &[u8]) -> Option<(Row<Mail, OrderLine>, &[u8])> {
        let (event, sent, who, rest) = three_of(
            alloc,
            bytes,
            br#"{"event":"#,
            br#","sent":"#,
            br#","who":"#,
            b"}",
        )?;
        Some((Row { who, event, sent }, rest))
    }
}

/// Returns the row with this text, if it has a shape that is read here; then no other row has the
/// text. `None` says nothing: there may be no such row, it may have another shape, or memory may
/// have run out.
pub fn common_row(alloc: Global, text: &[u8]) -> Option<Row<Mail, OrderLine>>
    ensures text { IfSome result (λ row. text_of row ≡ text.now) }
    ensures held { IfSome result (λ row. IsHeld row) }
    ensures only { IfSome result (λ row. (other : Row Mail OrderLine) → IsHeld other
        → text_of other ≡ text.now → other ≡ row) }
{
    row_texts_read_back();
    let (row, rest): (Row<Mail, OrderLine>, &[u8]) = FromText::take(alloc, text)?;
    if rest.is_empty() { Some(row) } else { None }
}
