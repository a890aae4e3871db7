//! Votes in transactions, read from JSON.
ghost use Rattle.std.specs.Prelude.{◌≡◌, IfOk, codes};
ghost use Rattle.serde_json.specs.View.{view};
ghost use Rattle.sc_words.specs.declared.commands.votes.No.{No};
ghost use Rattle.sc_words.specs.declared.commands.votes.Vote.{Vote};
ghost use Rattle.sc_words.specs.declared.commands.votes.Past.{Past};
ghost use Rattle.sc_json_text.specs.rows.Shapes.{variant as variant_json};
ghost use Rattle.sc_json_read.specs.Reading.{Finds};
ghost use Rattle.sc_json_text.specs.rows.Votes.{no_json, FitsNo};
ghost use Rattle.sc_json_text.specs.rows.Votes.{frozen_json, FitsFrozen};
ghost use Rattle.sc_json_text.specs.rows.Votes.{heard_json, FitsHeard};
ghost use Rattle.sc_json_text.specs.rows.Votes.{vote_json, FitsVote};
ghost use Rattle.sc_json_text.specs.rows.Votes.{past_json, FitsPast};

use crate::errors::RowError;
use crate::from_json::{FromJson, Present};
use crate::objects::{five_of, pair_of, single_of};
use crate::tagged::{variant_parts, whole, word};
use sc_words::{Frozen, Heard, No, Past, Vote};
use serde_json::Value as Json;
use std::alloc::Global;

fn no_busy(alloc: Global, content: &Json) -> Result<No, RowError>
    ensures finds { (tx : _) → FitsNo (No.Busy tx)
        → variant_json (codes "Busy") (view content.now) ≡ no_json (No.Busy tx)
        → Finds (No.Busy tx) result }
    ensures exact { IfOk result (λ value.
        variant_json (codes "Busy") (view content.now) ≡ no_json value) }
{
    let tx = single_of(alloc, content, "tx")?;
    Ok(No::Busy { tx })
}

fn no_too_many(alloc: Global, content: &Json) -> Result<No, RowError>
    ensures finds { (n : _) → FitsNo (No.TooMany n)
        → variant_json (codes "TooMany") (view content.now) ≡ no_json (No.TooMany n)
        → Finds (No.TooMany n) result }
    ensures exact { IfOk result (λ value.
        variant_json (codes "TooMany") (view content.now) ≡ no_json value) }
{
    let n = single_of(alloc, content, "n")?;
    Ok(No::TooMany { n })
}

impl FromJson for No {
    ghost json_of = { no_json };

    ghost Fits = { FitsNo };

    fn from_json(alloc: Global, json: &Json) -> Result<No, RowError> {
        let Some((name, content)) = variant_parts(json) else {
            return Err(RowError::NoRow);
        };
        match name {
            "Busy" => no_busy(alloc, content),
            "Gone" => word(json, No::Gone),
            "Apart" => word(json, No::Apart),
            "TooMany" => no_too_many(alloc, content),
            _ => Err(RowError::NoRow),
        }
    }
}

impl FromJson for Frozen {
    ghost json_of = { frozen_json };

    ghost Fits = { FitsFrozen };

    fn from_json(alloc: Global, json: &Json) -> Result<Frozen, RowError> {
        let (arc, clients, members, pairs, succ) = five_of(
            alloc, json, "arc", "clients", "members", "pairs", "succ",
        )?;
        Ok(Frozen {
            arc,
            members,
            succ,
            pairs,
            clients,
        })
    }
}

impl FromJson for Heard {
    ghost json_of = { heard_json };

    ghost Fits = { FitsHeard };

    fn from_json(alloc: Global, json: &Json) -> Result<Heard, RowError> {
        let (by, frozen) = pair_of(alloc, json, "by", "frozen")?;
        Ok(Heard { frozen, by })
    }
}

fn vote_yes(alloc: Global, content: &Json) -> Result<Vote, RowError>
    ensures finds { (inner : _) → FitsVote (Vote.Yes inner)
        → variant_json (codes "Yes") (view content.now) ≡ vote_json (Vote.Yes inner)
        → Finds (Vote.Yes inner) result }
    ensures exact { IfOk result (λ value.
        variant_json (codes "Yes") (view content.now) ≡ vote_json value) }
{
    let inner = whole(alloc, content)?;
    Ok(Vote::Yes(inner))
}

fn vote_no(alloc: Global, content: &Json) -> Result<Vote, RowError>
    ensures finds { (inner : _) → FitsVote (Vote.No inner)
        → variant_json (codes "No") (view content.now) ≡ vote_json (Vote.No inner)
        → Finds (Vote.No inner) result }
    ensures exact { IfOk result (λ value.
        variant_json (codes "No") (view content.now) ≡ vote_json value) }
{
    let inner = whole(alloc, content)?;
    Ok(Vote::No(inner))
}

impl FromJson for Vote {
    ghost json_of = { vote_json };

    ghost Fits = { FitsVote };

    fn from_json(alloc: Global, json: &Json) -> Result<Vote, RowError> {
        let Some((name, content)) = variant_parts(json) else {
            return Err(RowError::NoRow);
        };
        match name {
            "Yes" => vote_yes(alloc, content),
            "No" => vote_no(alloc, content),
            _ => Err(RowError::NoRow),
        }
    }
}

fn past_no(alloc: Global, content: &Json) -> Result<Past, RowError>
    ensures finds { (inner : _) → FitsPast (Past.No inner)
        → variant_json (codes "No") (view content.now) ≡ past_json (Past.No inner)
        → Finds (Past.No inner) result }
    ensures exact { IfOk result (λ value.
        variant_json (codes "No") (view content.now) ≡ past_json value) }
{
    let inner = whole(alloc, content)?;
    Ok(Past::No(inner))
}

impl FromJson for Past {
    ghost json_of = { past_json };

    ghost Fits = { FitsPast };

    fn from_json(alloc: Global, json: &Json) -> Result<Past, RowError> {
        let Some((name, content)) = variant_parts(json) else {
            return Err(RowError::NoRow);
        };
        match name {
            "Yes" => word(json, Past::Yes),
            "No" => past_no(alloc, content),
            "Ended" => word(json, Past::Ended),
            _ => Err(RowError::NoRow),
        }
    }
}

impl Present for Heard {
    ghost use Rattle.sc_json_read.specs.Presence.{heard_there};

    ghost is_there = { heard_there };
}
