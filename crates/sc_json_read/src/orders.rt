//! Orders and their results, read from JSON.
ghost use Rattle.std.specs.Prelude.{◌≡◌, IfOk, codes};
ghost use Rattle.serde_json.specs.View.{view};
ghost use Rattle.sc_words.specs.declared.commands.orders.Order.{Order};
ghost use Rattle.sc_words.specs.declared.commands.orders.OrderRefusal.{OrderRefusal};
ghost use Rattle.sc_words.specs.declared.commands.orders.OrderResult.{OrderResult};
ghost use Rattle.sc_json_text.specs.rows.Shapes.{variant as variant_json};
ghost use Rattle.sc_json_read.specs.Reading.{Finds};
ghost use Rattle.sc_json_text.specs.rows.Orders.{order_json, FitsOrder};
ghost use Rattle.sc_json_text.specs.rows.Orders.{order_line_json, FitsOrderLine};
ghost use Rattle.sc_json_text.specs.rows.Orders.{order_refusal_json, FitsOrderRefusal};
ghost use Rattle.sc_json_text.specs.rows.Orders.{order_result_json, FitsOrderResult};

use crate::errors::RowError;
use crate::from_json::FromJson;
use crate::objects::{pair_of, single_of};
use crate::tagged::{variant_parts, whole, word};
use sc_words::{Order, OrderLine, OrderRefusal, OrderResult};
use serde_json::Value as Json;
use std::alloc::Global;

fn order_join(alloc: Global, content: &Json) -> Result<Order, RowError>
    ensures finds { (node : _) (group : _) → FitsOrder (Order.Join node group)
        → variant_json (codes "Join") (view content.now) ≡ order_json (Order.Join node group)
        → Finds (Order.Join node group) result }
    ensures exact { IfOk result (λ value.
        variant_json (codes "Join") (view content.now) ≡ order_json value) }
{
    let (group, node) = pair_of(alloc, content, "group", "node")?;
    Ok(Order::Join { node, group })
}

fn order_leave(alloc: Global, content: &Json) -> Result<Order, RowError>
    ensures finds { (node : _) (group : _) → FitsOrder (Order.Leave node group)
        → variant_json (codes "Leave") (view content.now) ≡ order_json (Order.Leave node group)
        → Finds (Order.Leave node group) result }
    ensures exact { IfOk result (λ value.
        variant_json (codes "Leave") (view content.now) ≡ order_json value) }
{
    let (group, node) = pair_of(alloc, content, "group", "node")?;
    Ok(Order::Leave { node, group })
}

fn order_split(alloc: Global, content: &Json) -> Result<Order, RowError>
    ensures finds { (group : _) (at : _) → FitsOrder (Order.Split group at)
        → variant_json (codes "Split") (view content.now) ≡ order_json (Order.Split group at)
        → Finds (Order.Split group at) result }
    ensures exact { IfOk result (λ value.
        variant_json (codes "Split") (view content.now) ≡ order_json value) }
{
    let (at, group) = pair_of(alloc, content, "at", "group")?;
    Ok(Order::Split { group, at })
}

fn order_merge(alloc: Global, content: &Json) -> Result<Order, RowError>
    ensures finds { (group : _) → FitsOrder (Order.Merge group)
        → variant_json (codes "Merge") (view content.now) ≡ order_json (Order.Merge group)
        → Finds (Order.Merge group) result }
    ensures exact { IfOk result (λ value.
        variant_json (codes "Merge") (view content.now) ≡ order_json value) }
{
    let group = single_of(alloc, content, "group")?;
    Ok(Order::Merge { group })
}

fn order_repart(alloc: Global, content: &Json) -> Result<Order, RowError>
    ensures finds { (group : _) (at : _) → FitsOrder (Order.Repart group at)
        → variant_json (codes "Repart") (view content.now) ≡ order_json (Order.Repart group at)
        → Finds (Order.Repart group at) result }
    ensures exact { IfOk result (λ value.
        variant_json (codes "Repart") (view content.now) ≡ order_json value) }
{
    let (at, group) = pair_of(alloc, content, "at", "group")?;
    Ok(Order::Repart { group, at })
}

fn order_migrate(alloc: Global, content: &Json) -> Result<Order, RowError>
    ensures finds { (group : _) (node : _) → FitsOrder (Order.Migrate group node)
        → variant_json (codes "Migrate") (view content.now) ≡ order_json (Order.Migrate group node)
        → Finds (Order.Migrate group node) result }
    ensures exact { IfOk result (λ value.
        variant_json (codes "Migrate") (view content.now) ≡ order_json value) }
{
    let (group, node) = pair_of(alloc, content, "group", "node")?;
    Ok(Order::Migrate { group, node })
}

impl FromJson for Order {
    ghost json_of = { order_json };

    ghost Fits = { FitsOrder };

    fn from_json(alloc: Global, json: &Json) -> Result<Order, RowError> {
        let Some((name, content)) = variant_parts(json) else {
            return Err(RowError::NoRow);
        };
        match name {
            "Join" => order_join(alloc, content),
            "Leave" => order_leave(alloc, content),
            "Split" => order_split(alloc, content),
            "Merge" => order_merge(alloc, content),
            "Repart" => order_repart(alloc, content),
            "Migrate" => order_migrate(alloc, content),
            _ => Err(RowError::NoRow),
        }
    }
}

impl FromJson for OrderLine {
    ghost json_of = { order_line_json };

    ghost Fits = { FitsOrderLine };

    fn from_json(alloc: Global, json: &Json) -> Result<OrderLine, RowError> {
        let (number, order) = pair_of(alloc, json, "number", "order")?;
        Ok(OrderLine { number, order })
    }
}

fn order_refusal_not_leader(alloc: Global, content: &Json) -> Result<OrderRefusal, RowError>
    ensures finds { (hint : _) → FitsOrderRefusal (OrderRefusal.NotLeader hint)
        → variant_json (codes "NotLeader") (view content.now)
        ≡ order_refusal_json (OrderRefusal.NotLeader hint)
        → Finds (OrderRefusal.NotLeader hint) result }
    ensures exact { IfOk result (λ value.
        variant_json (codes "NotLeader") (view content.now) ≡ order_refusal_json value) }
{
    let hint = single_of(alloc, content, "hint")?;
    Ok(OrderRefusal::NotLeader { hint })
}

fn order_refusal_in_transaction(alloc: Global, content: &Json) -> Result<OrderRefusal, RowError>
    ensures finds { (tx : _) → FitsOrderRefusal (OrderRefusal.InTransaction tx)
        → variant_json (codes "InTransaction") (view content.now)
        ≡ order_refusal_json (OrderRefusal.InTransaction tx)
        → Finds (OrderRefusal.InTransaction tx) result }
    ensures exact { IfOk result (λ value.
        variant_json (codes "InTransaction") (view content.now) ≡ order_refusal_json value) }
{
    let tx = single_of(alloc, content, "tx")?;
    Ok(OrderRefusal::InTransaction { tx })
}

fn order_refusal_too_many_members(alloc: Global, content: &Json) -> Result<OrderRefusal, RowError>
    ensures finds { (n : _) → FitsOrderRefusal (OrderRefusal.TooManyMembers n)
        → variant_json (codes "TooManyMembers") (view content.now)
        ≡ order_refusal_json (OrderRefusal.TooManyMembers n)
        → Finds (OrderRefusal.TooManyMembers n) result }
    ensures exact { IfOk result (λ value.
        variant_json (codes "TooManyMembers") (view content.now) ≡ order_refusal_json value) }
{
    let n = single_of(alloc, content, "n")?;
    Ok(OrderRefusal::TooManyMembers { n })
}

impl FromJson for OrderRefusal {
    ghost json_of = { order_refusal_json };

    ghost Fits = { FitsOrderRefusal };

    fn from_json(alloc: Global, json: &Json) -> Result<OrderRefusal, RowError> {
        let Some((name, content)) = variant_parts(json) else {
            return Err(RowError::NoRow);
        };
        match name {
            "NotLeader" => order_refusal_not_leader(alloc, content),
            "InTransaction" => order_refusal_in_transaction(alloc, content),
            "NoNeighbour" => word(json, OrderRefusal::NoNeighbour),
            "BadBoundary" => word(json, OrderRefusal::BadBoundary),
            "TooManyMembers" => order_refusal_too_many_members(alloc, content),
            "NotMember" => word(json, OrderRefusal::NotMember),
            "LastMember" => word(json, OrderRefusal::LastMember),
            "TxLimit" => word(json, OrderRefusal::TxLimit),
            "IsMember" => word(json, OrderRefusal::IsMember),
            _ => Err(RowError::NoRow),
        }
    }
}

fn order_result_refused(alloc: Global, content: &Json) -> Result<OrderResult, RowError>
    ensures finds { (inner : _) → FitsOrderResult (OrderResult.Refused inner)
        → variant_json (codes "Refused") (view content.now)
        ≡ order_result_json (OrderResult.Refused inner)
        → Finds (OrderResult.Refused inner) result }
    ensures exact { IfOk result (λ value.
        variant_json (codes "Refused") (view content.now) ≡ order_result_json value) }
{
    let inner = whole(alloc, content)?;
    Ok(OrderResult::Refused(inner))
}

impl FromJson for OrderResult {
    ghost json_of = { order_result_json };

    ghost Fits = { FitsOrderResult };

    fn from_json(alloc: Global, json: &Json) -> Result<OrderResult, RowError> {
        let Some((name, content)) = variant_parts(json) else {
            return Err(RowError::NoRow);
        };
        match name {
            "Done" => word(json, OrderResult::Done),
            "Committed" => word(json, OrderResult::Committed),
            "Aborted" => word(json, OrderResult::Aborted),
            "Refused" => order_result_refused(alloc, content),
            _ => Err(RowError::NoRow),
        }
    }
}
