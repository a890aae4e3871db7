//! Outcomes of transactions, read from JSON.
ghost use Rattle.std.specs.Prelude.{◌≡◌, IfOk, codes};
ghost use Rattle.serde_json.specs.View.{view};
ghost use Rattle.sc_words.specs.declared.commands.votes.Outcome.{Outcome};
ghost use Rattle.sc_json_text.specs.rows.Shapes.{variant as variant_json};
ghost use Rattle.sc_json_read.specs.Reading.{Finds};
ghost use Rattle.sc_json_text.specs.rows.Outcomes.{gift_json, FitsGift};
ghost use Rattle.sc_json_text.specs.rows.Outcomes.{outcome_json, FitsOutcome};

use crate::errors::RowError;
use crate::from_json::{FromJson, Present};
use crate::objects::{pair_of, single_of};
use crate::tagged::{variant_parts, word};
use sc_words::{Gift, Outcome};
use serde_json::Value as Json;
use std::alloc::Global;

impl FromJson for Gift {
    ghost json_of = { gift_json };

    ghost Fits = { FitsGift };

    fn from_json(alloc: Global, json: &Json) -> Result<Gift, RowError> {
        let (clients, pairs) = pair_of(alloc, json, "clients", "pairs")?;
        Ok(Gift { pairs, clients })
    }
}

fn outcome_merged(alloc: Global, content: &Json) -> Result<Outcome, RowError>
    ensures finds { (into : _) → FitsOutcome (Outcome.Merged into)
        → variant_json (codes "Merged") (view content.now) ≡ outcome_json (Outcome.Merged into)
        → Finds (Outcome.Merged into) result }
    ensures exact { IfOk result (λ value.
        variant_json (codes "Merged") (view content.now) ≡ outcome_json value) }
{
    let into = single_of(alloc, content, "into")?;
    Ok(Outcome::Merged { into })
}

fn outcome_moved(alloc: Global, content: &Json) -> Result<Outcome, RowError>
    ensures finds { (at : _) (gift : _) → FitsOutcome (Outcome.Moved at gift)
        → variant_json (codes "Moved") (view content.now) ≡ outcome_json (Outcome.Moved at gift)
        → Finds (Outcome.Moved at gift) result }
    ensures exact { IfOk result (λ value.
        variant_json (codes "Moved") (view content.now) ≡ outcome_json value) }
{
    let (at, gift) = pair_of(alloc, content, "at", "gift")?;
    Ok(Outcome::Moved { at, gift })
}

fn outcome_migrated(alloc: Global, content: &Json) -> Result<Outcome, RowError>
    ensures finds { (node : _) → FitsOutcome (Outcome.Migrated node)
        → variant_json (codes "Migrated") (view content.now) ≡ outcome_json (Outcome.Migrated node)
        → Finds (Outcome.Migrated node) result }
    ensures exact { IfOk result (λ value.
        variant_json (codes "Migrated") (view content.now) ≡ outcome_json value) }
{
    let node = single_of(alloc, content, "node")?;
    Ok(Outcome::Migrated { node })
}

impl FromJson for Outcome {
    ghost json_of = { outcome_json };

    ghost Fits = { FitsOutcome };

    fn from_json(alloc: Global, json: &Json) -> Result<Outcome, RowError> {
        let Some((name, content)) = variant_parts(json) else {
            return Err(RowError::NoRow);
        };
        match name {
            "Abort" => word(json, Outcome::Abort),
            "Merged" => outcome_merged(alloc, content),
            "Moved" => outcome_moved(alloc, content),
            "Migrated" => outcome_migrated(alloc, content),
            "Divided" => word(json, Outcome::Divided),
            _ => Err(RowError::NoRow),
        }
    }
}

impl Present for Gift {
    ghost use Rattle.sc_json_read.specs.Presence.{gift_there};

    ghost is_there = { gift_there };
}
