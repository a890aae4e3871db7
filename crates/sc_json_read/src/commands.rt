//! Commands of the logs, and acceptors' reports of them, read from JSON.
ghost use Rattle.std.specs.Prelude.{◌≡◌, IfOk, codes};
ghost use Rattle.serde_json.specs.View.{view};
ghost use Rattle.sc_words.specs.declared.commands.commands.Command.{Command};
ghost use Rattle.sc_json_text.specs.rows.Shapes.{variant as variant_json};
ghost use Rattle.sc_json_read.specs.Reading.{Finds};
ghost use Rattle.sc_json_text.specs.rows.Commands.{command_json, FitsCommand};
ghost use Rattle.sc_json_text.specs.rows.Commands.{report_json, FitsReport};

use crate::errors::RowError;
use crate::from_json::FromJson;
use crate::objects::{pair_of, single_of, triple_of};
use crate::tagged::{variant_parts, word};
use sc_words::{Command, Report};
use serde_json::Value as Json;
use std::alloc::Global;

fn command_call(alloc: Global, content: &Json) -> Result<Command, RowError>
    ensures finds { (client : _) (seq : _) (op : _) → FitsCommand (Command.Call client seq op)
        → variant_json (codes "Call") (view content.now) ≡ command_json (Command.Call client seq op)
        → Finds (Command.Call client seq op) result }
    ensures exact { IfOk result (λ value.
        variant_json (codes "Call") (view content.now) ≡ command_json value) }
{
    let (client, op, seq) = triple_of(alloc, content, "client", "op", "seq")?;
    Ok(Command::Call { client, seq, op })
}

fn command_join(alloc: Global, content: &Json) -> Result<Command, RowError>
    ensures finds { (node : _) (order : _) → FitsCommand (Command.Join node order)
        → variant_json (codes "Join") (view content.now) ≡ command_json (Command.Join node order)
        → Finds (Command.Join node order) result }
    ensures exact { IfOk result (λ value.
        variant_json (codes "Join") (view content.now) ≡ command_json value) }
{
    let (node, order) = pair_of(alloc, content, "node", "order")?;
    Ok(Command::Join { node, order })
}

fn command_leave(alloc: Global, content: &Json) -> Result<Command, RowError>
    ensures finds { (node : _) (order : _) → FitsCommand (Command.Leave node order)
        → variant_json (codes "Leave") (view content.now) ≡ command_json (Command.Leave node order)
        → Finds (Command.Leave node order) result }
    ensures exact { IfOk result (λ value.
        variant_json (codes "Leave") (view content.now) ≡ command_json value) }
{
    let (node, order) = pair_of(alloc, content, "node", "order")?;
    Ok(Command::Leave { node, order })
}

fn command_split(alloc: Global, content: &Json) -> Result<Command, RowError>
    ensures finds { (at : _) (child : _) (order : _) → FitsCommand (Command.Split at child order)
        → variant_json (codes "Split") (view content.now)
        ≡ command_json (Command.Split at child order)
        → Finds (Command.Split at child order) result }
    ensures exact { IfOk result (λ value.
        variant_json (codes "Split") (view content.now) ≡ command_json value) }
{
    let (at, child, order) = triple_of(alloc, content, "at", "child", "order")?;
    Ok(Command::Split { at, child, order })
}

fn command_begin(alloc: Global, content: &Json) -> Result<Command, RowError>
    ensures finds { (tx : _) (body : _) (order : _) → FitsCommand (Command.Begin tx body order)
        → variant_json (codes "Begin") (view content.now)
        ≡ command_json (Command.Begin tx body order)
        → Finds (Command.Begin tx body order) result }
    ensures exact { IfOk result (λ value.
        variant_json (codes "Begin") (view content.now) ≡ command_json value) }
{
    let (body, order, tx) = triple_of(alloc, content, "body", "order", "tx")?;
    Ok(Command::Begin { tx, body, order })
}

fn command_prepared(alloc: Global, content: &Json) -> Result<Command, RowError>
    ensures finds { (tx : _) (offer : _) → FitsCommand (Command.Prepared tx offer)
        → variant_json (codes "Prepared") (view content.now)
        ≡ command_json (Command.Prepared tx offer)
        → Finds (Command.Prepared tx offer) result }
    ensures exact { IfOk result (λ value.
        variant_json (codes "Prepared") (view content.now) ≡ command_json value) }
{
    let (offer, tx) = pair_of(alloc, content, "offer", "tx")?;
    Ok(Command::Prepared { tx, offer })
}

fn command_record_vote(alloc: Global, content: &Json) -> Result<Command, RowError>
    ensures finds { (tx : _) (vote : _) (by : _) → FitsCommand (Command.RecordVote tx vote by)
        → variant_json (codes "RecordVote") (view content.now)
        ≡ command_json (Command.RecordVote tx vote by)
        → Finds (Command.RecordVote tx vote by) result }
    ensures exact { IfOk result (λ value.
        variant_json (codes "RecordVote") (view content.now) ≡ command_json value) }
{
    let (by, tx, vote) = triple_of(alloc, content, "by", "tx", "vote")?;
    Ok(Command::RecordVote { tx, vote, by })
}

fn command_give_up(alloc: Global, content: &Json) -> Result<Command, RowError>
    ensures finds { (tx : _) → FitsCommand (Command.GiveUp tx)
        → variant_json (codes "GiveUp") (view content.now) ≡ command_json (Command.GiveUp tx)
        → Finds (Command.GiveUp tx) result }
    ensures exact { IfOk result (λ value.
        variant_json (codes "GiveUp") (view content.now) ≡ command_json value) }
{
    let tx = single_of(alloc, content, "tx")?;
    Ok(Command::GiveUp { tx })
}

fn command_finish(alloc: Global, content: &Json) -> Result<Command, RowError>
    ensures finds { (tx : _) (outcome : _) → FitsCommand (Command.Finish tx outcome)
        → variant_json (codes "Finish") (view content.now)
        ≡ command_json (Command.Finish tx outcome)
        → Finds (Command.Finish tx outcome) result }
    ensures exact { IfOk result (λ value.
        variant_json (codes "Finish") (view content.now) ≡ command_json value) }
{
    let (outcome, tx) = pair_of(alloc, content, "outcome", "tx")?;
    Ok(Command::Finish { tx, outcome })
}

fn command_watched(alloc: Global, content: &Json) -> Result<Command, RowError>
    ensures finds { (tx : _) (watch : _) → FitsCommand (Command.Watched tx watch)
        → variant_json (codes "Watched") (view content.now)
        ≡ command_json (Command.Watched tx watch)
        → Finds (Command.Watched tx watch) result }
    ensures exact { IfOk result (λ value.
        variant_json (codes "Watched") (view content.now) ≡ command_json value) }
{
    let (tx, watch) = pair_of(alloc, content, "tx", "watch")?;
    Ok(Command::Watched { tx, watch })
}

fn command_record_watch(alloc: Global, content: &Json) -> Result<Command, RowError>
    ensures finds { (tx : _) (vote : _) (by : _) → FitsCommand (Command.RecordWatch tx vote by)
        → variant_json (codes "RecordWatch") (view content.now)
        ≡ command_json (Command.RecordWatch tx vote by)
        → Finds (Command.RecordWatch tx vote by) result }
    ensures exact { IfOk result (λ value.
        variant_json (codes "RecordWatch") (view content.now) ≡ command_json value) }
{
    let (by, tx, vote) = triple_of(alloc, content, "by", "tx", "vote")?;
    Ok(Command::RecordWatch { tx, vote, by })
}

impl FromJson for Command {
    ghost json_of = { command_json };

    ghost Fits = { FitsCommand };

    fn from_json(alloc: Global, json: &Json) -> Result<Command, RowError> {
        let Some((name, content)) = variant_parts(json) else {
            return Err(RowError::NoRow);
        };
        match name {
            "Noop" => word(json, Command::Noop),
            "Call" => command_call(alloc, content),
            "Join" => command_join(alloc, content),
            "Leave" => command_leave(alloc, content),
            "Split" => command_split(alloc, content),
            "Begin" => command_begin(alloc, content),
            "Prepared" => command_prepared(alloc, content),
            "RecordVote" => command_record_vote(alloc, content),
            "GiveUp" => command_give_up(alloc, content),
            "Finish" => command_finish(alloc, content),
            "Watched" => command_watched(alloc, content),
            "RecordWatch" => command_record_watch(alloc, content),
            _ => Err(RowError::NoRow),
        }
    }
}

impl FromJson for Report<Command> {
    ghost json_of = { report_json };

    ghost Fits = { FitsReport };

    fn from_json(alloc: Global, json: &Json) -> Result<Report<Command>, RowError> {
        let (ballot, slot, value) = triple_of(alloc, json, "ballot", "slot", "value")?;
        Ok(Report {
            slot,
            ballot,
            value,
        })
    }
}
