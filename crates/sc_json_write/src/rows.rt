//! Rows and their events, written as JSON.
ghost use Rattle.sc_json_text.specs.rows.Rows.{event_json, FitsEvent};
ghost use Rattle.sc_json_text.specs.rows.Rows.{row_json, FitsRow};

use crate::to_json::ToJson;
use crate::writing::{three, unit, variant_of};
use sc_actor::{Event, Row};
use sc_base::OutOfMemory;
use sc_mail::Mail;
use sc_words::OrderLine;
use serde_json::Value as Json;
use std::alloc::Global;

impl ToJson for Event<OrderLine> {
    ghost json_of = { event_json };

    ghost Fits = { FitsEvent };

    #[tactic(auto, unfolding(crate::specs::Json::event_json, crate::specs::Json::FitsEvent))]
    fn to_json(&self, alloc: Global) -> Result<Json, OutOfMemory> {
        match self {
            Event::Deliver(content) => variant_of(alloc, "Deliver", content),
            Event::Tick => unit(alloc, "Tick"),
            Event::Go => unit(alloc, "Go"),
            Event::Told(content) => variant_of(alloc, "Told", content),
            Event::Crash => unit(alloc, "Crash"),
            Event::Drop(content) => variant_of(alloc, "Drop", content),
            Event::Again(content) => variant_of(alloc, "Again", content),
        }
    }
}

impl ToJson for Row<Mail, OrderLine> {
    ghost json_of = { row_json };

    ghost Fits = { FitsRow };

    #[tactic(auto, unfolding(crate::specs::Json::row_json, crate::specs::Json::FitsRow))]
    fn to_json(&self, alloc: Global) -> Result<Json, OutOfMemory> {
        three(
            alloc,
            ("event", &self.event),
            ("sent", &self.sent),
            ("who", &self.who),
        )
    }
}
