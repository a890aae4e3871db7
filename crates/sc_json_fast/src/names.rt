//! Names and ballots, read from their texts.
ghost use Rattle.sc_json_text.specs.rows.Names.{draw_json, FitsDraw, ballot_json, FitsBallot};

use crate::from_text::FromText;
use crate::parts::two_of;
use sc_base::{Ballot, Draw};
use std::alloc::Global;

impl FromText for Draw {
    ghost json_of = { draw_json };

    ghost Fits = { FitsDraw };

    fn take(alloc: Global, bytes: &[u8]) -> Option<(Draw, &[u8])> {
        let (node, count, rest) = two_of(alloc, bytes, b"\"", b".", b"\"")?;
        Some((Draw { node, count }, rest))
    }
}

impl FromText for Ballot {
    ghost json_of = { ballot_json };

    ghost Fits = { FitsBallot };

    fn take(alloc: Global, bytes: &[u8]) -> Option<(Ballot, &[u8])> {
        let (round, node, rest) = two_of(alloc, bytes, b"[", b",", b"]")?;
        Some((Ballot { round, node }, rest))
    }
}
