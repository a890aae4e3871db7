//! Events of rows, read from JSON.
ghost use Rattle.std.specs.Prelude.{◌≡◌, IfOk, codes};
ghost use Rattle.serde_json.specs.View.{view};
ghost use Rattle.sc_json_text.specs.rows.Shapes.{variant as variant_json};
ghost use Rattle.sc_json_read.specs.Reading.{Finds};
ghost use Rattle.sc_json_text.specs.rows.Rows.{event_json, FitsEvent};

use crate::errors::RowError;
use crate::from_json::FromJson;
use crate::tagged::{variant_parts, whole, word};
use sc_actor::Event;
use sc_words::OrderLine;
use serde_json::Value as Json;
use std::alloc::Global;

fn event_deliver(alloc: Global, content: &Json) -> Result<Event<OrderLine>, RowError>
    ensures finds { (inner : _) → FitsEvent (Event.Deliver inner)
        → variant_json (codes "Deliver") (view content.now) ≡ event_json (Event.Deliver inner)
        → Finds (Event.Deliver inner) result }
    ensures exact { IfOk result (λ value.
        variant_json (codes "Deliver") (view content.now) ≡ event_json value) }
{
    let inner = whole(alloc, content)?;
    Ok(Event::Deliver(inner))
}

fn event_told(alloc: Global, content: &Json) -> Result<Event<OrderLine>, RowError>
    ensures finds { (inner : _) → FitsEvent (Event.Told inner)
        → variant_json (codes "Told") (view content.now) ≡ event_json (Event.Told inner)
        → Finds (Event.Told inner) result }
    ensures exact { IfOk result (λ value.
        variant_json (codes "Told") (view content.now) ≡ event_json value) }
{
    let inner = whole(alloc, content)?;
    Ok(Event::Told(inner))
}

fn event_drop(alloc: Global, content: &Json) -> Result<Event<OrderLine>, RowError>
    ensures finds { (inner : _) → FitsEvent (Event.Drop inner)
        → variant_json (codes "Drop") (view content.now) ≡ event_json (Event.Drop inner)
        → Finds (Event.Drop inner) result }
    ensures exact { IfOk result (λ value.
        variant_json (codes "Drop") (view content.now) ≡ event_json value) }
{
    let inner = whole(alloc, content)?;
    Ok(Event::Drop(inner))
}

fn event_again(alloc: Global, content: &Json) -> Result<Event<OrderLine>, RowError>
    ensures finds { (inner : _) → FitsEvent (Event.Again inner)
        → variant_json (codes "Again") (view content.now) ≡ event_json (Event.Again inner)
        → Finds (Event.Again inner) result }
    ensures exact { IfOk result (λ value.
        variant_json (codes "Again") (view content.now) ≡ event_json value) }
{
    let inner = whole(alloc, content)?;
    Ok(Event::Again(inner))
}

impl FromJson for Event<OrderLine> {
    ghost json_of = { event_json };

    ghost Fits = { FitsEvent };

    fn from_json(alloc: Global, json: &Json) -> Result<Event<OrderLine>, RowError> {
        let Some((name, content)) = variant_parts(json) else {
            return Err(RowError::NoRow);
        };
        match name {
            "Deliver" => event_deliver(alloc, content),
            "Tick" => word(json, Event::Tick),
            "Go" => word(json, Event::Go),
            "Told" => event_told(alloc, content),
            "Crash" => word(json, Event::Crash),
            "Drop" => event_drop(alloc, content),
            "Again" => event_again(alloc, content),
            _ => Err(RowError::NoRow),
        }
    }
}
