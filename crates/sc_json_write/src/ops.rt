//! Operations and replies, written as JSON.
ghost use Rattle.sc_base.specs.declared.ops.Op.{Op};
ghost use Rattle.sc_json_text.specs.rows.Ops.{op_json, FitsOp};
ghost use Rattle.sc_json_text.specs.rows.Ops.{reply_json, FitsReply};

use crate::to_json::ToJson;
use crate::writing::{one, variant_one, variant_three, variant_two};
use sc_base::{Op, OutOfMemory, Reply};
use serde_json::Value as Json;
use std::alloc::Global;

impl ToJson for Op {
    ghost json_of = { op_json };

    ghost Fits = { FitsOp };

    #[tactic(auto, unfolding(crate::specs::Json::op_json, crate::specs::Json::FitsOp))]
    fn to_json(&self, alloc: Global) -> Result<Json, OutOfMemory> {
        match self {
            Op::Get { key } => variant_one(alloc, "Get", ("key", key)),
            Op::Put { key, value } => variant_two(alloc, "Put", ("key", key), ("value", value)),
            Op::Del { key } => variant_one(alloc, "Del", ("key", key)),
            Op::Add { key, value } => variant_two(alloc, "Add", ("key", key), ("value", value)),
            Op::Cas { key, expect, value } => variant_three(
                alloc,
                "Cas",
                ("expect", expect),
                ("key", key),
                ("value", value),
            ),
        }
    }
}

impl ToJson for Reply {
    ghost json_of = { reply_json };

    ghost Fits = { FitsReply };

    #[tactic(auto, unfolding(crate::specs::Json::reply_json, crate::specs::Json::FitsReply))]
    fn to_json(&self, alloc: Global) -> Result<Json, OutOfMemory> {
        one(alloc, ("old", &self.old))
    }
}
