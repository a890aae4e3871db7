//! Names and ballots, read from JSON.
ghost use Rattle.std.specs.Prelude.{◌≡◌, ◌==◌, ◌<◌, position, length, Some, IfSome};
ghost use Rattle.serde_json.specs.Data.{string};
ghost use Rattle.sc_base.specs.declared.names.Draw.{Draw};
ghost use Rattle.sc_json_text.specs.rows.Names.{draw_json, FitsDraw, ballot_json, FitsBallot};

use crate::errors::RowError;
use crate::from_json::{FromJson, Present};
use crate::items::pair_in;
use sc_base::{Ballot, Draw, read_number};
use serde_json::Value as Json;
use std::alloc::Global;

/// Returns the place of the first dot in a text.
fn dot_of(text: &[u8]) -> Option<usize>
    ensures place { result ≡ position (λ byte. byte == 46) text.now }
    ensures within { IfSome result (λ dot. dot < length text.now) }
{
    text.iter().position(|byte| *byte == b'.')
}

/// Returns the name that a text spells.
#[tactic(auto, unfolding(crate::specs::ParsedJson::draw_json, crate::specs::ParsedJson::FitsDraw))]
fn draw_of(text: &[u8]) -> Option<Draw>
    ensures finds { (draw : Draw) → FitsDraw draw → string text.now ≡ draw_json draw
        → result ≡ Some draw }
    ensures exact { IfSome result (λ draw. string text.now ≡ draw_json draw) }
{
    let dot = dot_of(text)?;
    let node = read_number(&text[..dot], u16::MAX as u64)?;
    let count = read_number(&text[dot + 1..], u32::MAX as u64)?;
    Some(Draw {
        node: u16::try_from(node).ok()?,
        count: u32::try_from(count).ok()?,
    })
}

impl FromJson for Draw {
    ghost json_of = { draw_json };

    ghost Fits = { FitsDraw };

    #[tactic(auto, using(crate::proofs::TextSteps::is_string), unfolding(sc_json_text::specs::rows::Names::draw_json))]
    fn from_json(_alloc: Global, json: &Json) -> Result<Draw, RowError> {
        match json.as_str() {
            Some(text) => match draw_of(text.as_bytes()) {
                Some(draw) => Ok(draw),
                None => Err(RowError::NoRow),
            },
            None => Err(RowError::NoRow),
        }
    }
}

impl Present for Draw {
    ghost use Rattle.sc_json_read.specs.Presence.{draw_there};

    ghost is_there = { draw_there };
}

impl FromJson for Ballot {
    ghost json_of = { ballot_json };

    ghost Fits = { FitsBallot };

    #[tactic(auto, unfolding(crate::specs::ParsedJson::ballot_json, crate::specs::ParsedJson::FitsBallot))]
    fn from_json(alloc: Global, json: &Json) -> Result<Ballot, RowError> {
        let (round, node) = pair_in(alloc, json)?;
        Ok(Ballot { round, node })
    }
}

impl Present for Ballot {
    ghost use Rattle.sc_json_read.specs.Presence.{ballot_there};

    ghost is_there = { ballot_there };
}
