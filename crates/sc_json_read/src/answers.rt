//! Answers to clients, read from JSON.
ghost use Rattle.std.specs.Prelude.{◌≡◌, IfOk, codes};
ghost use Rattle.serde_json.specs.View.{view};
ghost use Rattle.sc_mail.specs.declared.bodies.AnswerBody.{AnswerBody};
ghost use Rattle.sc_json_text.specs.rows.Shapes.{variant as variant_json};
ghost use Rattle.sc_json_read.specs.Reading.{Finds};
ghost use Rattle.sc_json_text.specs.rows.Answers.{answer_body_json, FitsAnswerBody};

use crate::errors::RowError;
use crate::from_json::FromJson;
use crate::objects::{pair_of, single_of};
use crate::tagged::{variant_parts, whole};
use sc_mail::AnswerBody;
use serde_json::Value as Json;
use std::alloc::Global;

fn answer_body_value(alloc: Global, content: &Json) -> Result<AnswerBody, RowError>
    ensures finds { (inner : _) → FitsAnswerBody (AnswerBody.Value inner)
        → variant_json (codes "Value") (view content.now)
        ≡ answer_body_json (AnswerBody.Value inner)
        → Finds (AnswerBody.Value inner) result }
    ensures exact { IfOk result (λ value.
        variant_json (codes "Value") (view content.now) ≡ answer_body_json value) }
{
    let inner = whole(alloc, content)?;
    Ok(AnswerBody::Value(inner))
}

fn answer_body_not_leader(alloc: Global, content: &Json) -> Result<AnswerBody, RowError>
    ensures finds { (hint : _) → FitsAnswerBody (AnswerBody.NotLeader hint)
        → variant_json (codes "NotLeader") (view content.now)
        ≡ answer_body_json (AnswerBody.NotLeader hint)
        → Finds (AnswerBody.NotLeader hint) result }
    ensures exact { IfOk result (λ value.
        variant_json (codes "NotLeader") (view content.now) ≡ answer_body_json value) }
{
    let hint = single_of(alloc, content, "hint")?;
    Ok(AnswerBody::NotLeader { hint })
}

fn answer_body_not_mine(alloc: Global, content: &Json) -> Result<AnswerBody, RowError>
    ensures finds { (arc : _) (succ : _) → FitsAnswerBody (AnswerBody.NotMine arc succ)
        → variant_json (codes "NotMine") (view content.now)
        ≡ answer_body_json (AnswerBody.NotMine arc succ)
        → Finds (AnswerBody.NotMine arc succ) result }
    ensures exact { IfOk result (λ value.
        variant_json (codes "NotMine") (view content.now) ≡ answer_body_json value) }
{
    let (arc, succ) = pair_of(alloc, content, "arc", "succ")?;
    Ok(AnswerBody::NotMine { arc, succ })
}

fn answer_body_gone(alloc: Global, content: &Json) -> Result<AnswerBody, RowError>
    ensures finds { (into : _) → FitsAnswerBody (AnswerBody.Gone into)
        → variant_json (codes "Gone") (view content.now) ≡ answer_body_json (AnswerBody.Gone into)
        → Finds (AnswerBody.Gone into) result }
    ensures exact { IfOk result (λ value.
        variant_json (codes "Gone") (view content.now) ≡ answer_body_json value) }
{
    let into = single_of(alloc, content, "into")?;
    Ok(AnswerBody::Gone { into })
}

fn answer_body_stale(alloc: Global, content: &Json) -> Result<AnswerBody, RowError>
    ensures finds { (last : _) → FitsAnswerBody (AnswerBody.Stale last)
        → variant_json (codes "Stale") (view content.now) ≡ answer_body_json (AnswerBody.Stale last)
        → Finds (AnswerBody.Stale last) result }
    ensures exact { IfOk result (λ value.
        variant_json (codes "Stale") (view content.now) ≡ answer_body_json value) }
{
    let last = single_of(alloc, content, "last")?;
    Ok(AnswerBody::Stale { last })
}

impl FromJson for AnswerBody {
    ghost json_of = { answer_body_json };

    ghost Fits = { FitsAnswerBody };

    fn from_json(alloc: Global, json: &Json) -> Result<AnswerBody, RowError> {
        let Some((name, content)) = variant_parts(json) else {
            return Err(RowError::NoRow);
        };
        match name {
            "Value" => answer_body_value(alloc, content),
            "NotLeader" => answer_body_not_leader(alloc, content),
            "NotMine" => answer_body_not_mine(alloc, content),
            "Gone" => answer_body_gone(alloc, content),
            "Stale" => answer_body_stale(alloc, content),
            _ => Err(RowError::NoRow),
        }
    }
}
