//! Answers to clients, written as JSON.
ghost use Rattle.sc_mail.specs.declared.bodies.AnswerBody.{AnswerBody};
ghost use Rattle.sc_json_text.specs.rows.Answers.{answer_body_json, FitsAnswerBody};

use crate::to_json::ToJson;
use crate::writing::{variant_of, variant_one, variant_two};
use sc_base::OutOfMemory;
use sc_mail::AnswerBody;
use serde_json::Value as Json;
use std::alloc::Global;

#[tactic(auto, unfolding(crate::specs::Json::answer_body_json, crate::specs::Json::FitsAnswerBody))]
impl ToJson for AnswerBody {
    ghost json_of = { answer_body_json };

    ghost Fits = { FitsAnswerBody };

    fn to_json(&self, alloc: Global) -> Result<Json, OutOfMemory> {
        match self {
            AnswerBody::Value(content) => variant_of(alloc, "Value", content),
            AnswerBody::NotLeader { hint } => variant_one(alloc, "NotLeader", ("hint", hint)),
            AnswerBody::NotMine { arc, succ } => variant_two(
                alloc,
                "NotMine",
                ("arc", arc),
                ("succ", succ),
            ),
            AnswerBody::Gone { into } => variant_one(alloc, "Gone", ("into", into)),
            AnswerBody::Stale { last } => variant_one(alloc, "Stale", ("last", last)),
        }
    }
}
