//! Commands of the logs, and acceptors' reports of them, written as JSON.
ghost use Rattle.std.specs.Prelude.{◌≡◌, true, IfOk, OnOk};
ghost use Rattle.serde_json.specs.View.{view};
ghost use Rattle.sc_json_write.specs.Topics.{is_vote};
ghost use Rattle.sc_json_text.specs.rows.Commands.{command_json, FitsCommand};
ghost use Rattle.sc_json_text.specs.rows.Commands.{report_json, FitsReport};

use crate::to_json::ToJson;
use crate::writing::{three, unit, variant_one, variant_three, variant_two};
use sc_base::OutOfMemory;
use sc_words::{Command, Report};
use serde_json::Value as Json;
use std::alloc::Global;

// Returns the JSON of a command that prepares or watches an offer, or records a vote or a watch.
#[tactic(auto, unfolding(crate::specs::Json::command_json, crate::specs::Json::FitsCommand))]
fn vote_json(alloc: Global, command: &Command) -> Result<Json, OutOfMemory>
    requires { is_vote command.now ≡ true }
    ensures json { IfOk result (λ json. view json ≡ command_json command.now) }
    ensures fits { OnOk result (FitsCommand command.now) }
{
    match command {
        Command::Prepared { tx, offer } => variant_two(
            alloc,
            "Prepared",
            ("offer", offer),
            ("tx", tx),
        ),
        Command::RecordVote { tx, vote, by } => variant_three(
            alloc,
            "RecordVote",
            ("by", by),
            ("tx", tx),
            ("vote", vote),
        ),
        Command::Watched { tx, watch } => variant_two(
            alloc,
            "Watched",
            ("tx", tx),
            ("watch", watch),
        ),
        Command::RecordWatch { tx, vote, by } => variant_three(
            alloc,
            "RecordWatch",
            ("by", by),
            ("tx", tx),
            ("vote", vote),
        ),
        _ => unreachable!(),
    }
}

impl ToJson for Command {
    ghost json_of = { command_json };

    ghost Fits = { FitsCommand };

    #[tactic(auto, unfolding(crate::specs::Json::command_json, crate::specs::Json::FitsCommand))]
    fn to_json(&self, alloc: Global) -> Result<Json, OutOfMemory> {
        match self {
            Command::Noop => unit(alloc, "Noop"),
            Command::Call { client, seq, op } => variant_three(
                alloc,
                "Call",
                ("client", client),
                ("op", op),
                ("seq", seq),
            ),
            Command::Join { node, order } => variant_two(
                alloc,
                "Join",
                ("node", node),
                ("order", order),
            ),
            Command::Leave { node, order } => variant_two(
                alloc,
                "Leave",
                ("node", node),
                ("order", order),
            ),
            Command::Split { at, child, order } => variant_three(
                alloc,
                "Split",
                ("at", at),
                ("child", child),
                ("order", order),
            ),
            Command::Begin { tx, body, order } => variant_three(
                alloc,
                "Begin",
                ("body", body),
                ("order", order),
                ("tx", tx),
            ),
            Command::GiveUp { tx } => variant_one(alloc, "GiveUp", ("tx", tx)),
            Command::Finish { tx, outcome } => variant_two(
                alloc,
                "Finish",
                ("outcome", outcome),
                ("tx", tx),
            ),
            Command::Prepared { .. }
            | Command::RecordVote { .. }
            | Command::Watched { .. }
            | Command::RecordWatch { .. } => vote_json(alloc, self),
        }
    }
}

impl ToJson for Report<Command> {
    ghost json_of = { report_json };

    ghost Fits = { FitsReport };

    #[tactic(auto, unfolding(crate::specs::Json::report_json, crate::specs::Json::FitsReport))]
    fn to_json(&self, alloc: Global) -> Result<Json, OutOfMemory> {
        three(
            alloc,
            ("ballot", &self.ballot),
            ("slot", &self.slot),
            ("value", &self.value),
        )
    }
}
