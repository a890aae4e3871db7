//! Orders and their results, written as JSON.
ghost use Rattle.sc_words.specs.declared.commands.orders.Order.{Order};
ghost use Rattle.sc_words.specs.declared.commands.orders.OrderRefusal.{OrderRefusal};
ghost use Rattle.sc_words.specs.declared.commands.orders.OrderResult.{OrderResult};
ghost use Rattle.sc_json_text.specs.rows.Orders.{order_json, FitsOrder};
ghost use Rattle.sc_json_text.specs.rows.Orders.{order_line_json, FitsOrderLine};
ghost use Rattle.sc_json_text.specs.rows.Orders.{order_refusal_json, FitsOrderRefusal};
ghost use Rattle.sc_json_text.specs.rows.Orders.{order_result_json, FitsOrderResult};

use crate::to_json::ToJson;
use crate::writing::{two, unit, variant_of, variant_one, variant_two};
use sc_base::OutOfMemory;
use sc_words::{Order, OrderLine, OrderRefusal, OrderResult};
use serde_json::Value as Json;
use std::alloc::Global;

impl ToJson for Order {
    ghost json_of = { order_json };

    ghost Fits = { FitsOrder };

    #[tactic(auto, unfolding(crate::specs::Json::order_json, crate::specs::Json::FitsOrder))]
    fn to_json(&self, alloc: Global) -> Result<Json, OutOfMemory> {
        match self {
            Order::Join { node, group } => variant_two(
                alloc,
                "Join",
                ("group", group),
                ("node", node),
            ),
            Order::Leave { node, group } => variant_two(
                alloc,
                "Leave",
                ("group", group),
                ("node", node),
            ),
            Order::Split { group, at } => variant_two(alloc, "Split", ("at", at), ("group", group)),
            Order::Merge { group } => variant_one(alloc, "Merge", ("group", group)),
            Order::Repart { group, at } => variant_two(
                alloc,
                "Repart",
                ("at", at),
                ("group", group),
            ),
            Order::Migrate { group, node } => variant_two(
                alloc,
                "Migrate",
                ("group", group),
                ("node", node),
            ),
        }
    }
}

#[tactic(auto, unfolding(crate::specs::Json::order_line_json, crate::specs::Json::FitsOrderLine))]
impl ToJson for OrderLine {
    ghost json_of = { order_line_json };

    ghost Fits = { FitsOrderLine };

    fn to_json(&self, alloc: Global) -> Result<Json, OutOfMemory> {
        two(alloc, ("number", &self.number), ("order", &self.order))
    }
}

#[tactic(auto, unfolding(crate::specs::Json::order_refusal_json, crate::specs::Json::FitsOrderRefusal))]
impl ToJson for OrderRefusal {
    ghost json_of = { order_refusal_json };

    ghost Fits = { FitsOrderRefusal };

    fn to_json(&self, alloc: Global) -> Result<Json, OutOfMemory> {
        match self {
            OrderRefusal::NotLeader { hint } => variant_one(alloc, "NotLeader", ("hint", hint)),
            OrderRefusal::InTransaction { tx } => variant_one(alloc, "InTransaction", ("tx", tx)),
            OrderRefusal::NoNeighbour => unit(alloc, "NoNeighbour"),
            OrderRefusal::BadBoundary => unit(alloc, "BadBoundary"),
            OrderRefusal::TooManyMembers { n } => variant_one(alloc, "TooManyMembers", ("n", n)),
            OrderRefusal::NotMember => unit(alloc, "NotMember"),
            OrderRefusal::LastMember => unit(alloc, "LastMember"),
            OrderRefusal::TxLimit => unit(alloc, "TxLimit"),
            OrderRefusal::IsMember => unit(alloc, "IsMember"),
        }
    }
}

#[tactic(auto, unfolding(crate::specs::Json::order_result_json, crate::specs::Json::FitsOrderResult))]
impl ToJson for OrderResult {
    ghost json_of = { order_result_json };

    ghost Fits = { FitsOrderResult };

    fn to_json(&self, alloc: Global) -> Result<Json, OutOfMemory> {
        match self {
            OrderResult::Done => unit(alloc, "Done"),
            OrderResult::Committed => unit(alloc, "Committed"),
            OrderResult::Aborted => unit(alloc, "Aborted"),
            OrderResult::Refused(content) => variant_of(alloc, "Refused", content),
        }
    }
}
