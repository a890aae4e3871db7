//! Operations and replies, read from JSON.
ghost use Rattle.std.specs.Prelude.{◌≡◌, IfOk, codes};
ghost use Rattle.serde_json.specs.View.{view};
ghost use Rattle.sc_base.specs.declared.ops.Op.{Op};
ghost use Rattle.sc_json_text.specs.rows.Shapes.{variant as variant_json};
ghost use Rattle.sc_json_read.specs.Reading.{Finds};
ghost use Rattle.sc_json_text.specs.rows.Ops.{op_json, FitsOp};
ghost use Rattle.sc_json_text.specs.rows.Ops.{reply_json, FitsReply};

use crate::errors::RowError;
use crate::from_json::FromJson;
use crate::objects::{pair_of, single_of, triple_of};
use crate::tagged::variant_parts;
use sc_base::{Op, Reply};
use serde_json::Value as Json;
use std::alloc::Global;

fn op_get(alloc: Global, content: &Json) -> Result<Op, RowError>
    ensures finds { (key : _) → FitsOp (Op.Get key)
        → variant_json (codes "Get") (view content.now) ≡ op_json (Op.Get key)
        → Finds (Op.Get key) result }
    ensures exact { IfOk result (λ value.
        variant_json (codes "Get") (view content.now) ≡ op_json value) }
{
    let key = single_of(alloc, content, "key")?;
    Ok(Op::Get { key })
}

fn op_put(alloc: Global, content: &Json) -> Result<Op, RowError>
    ensures finds { (key : _) (value : _) → FitsOp (Op.Put key value)
        → variant_json (codes "Put") (view content.now) ≡ op_json (Op.Put key value)
        → Finds (Op.Put key value) result }
    ensures exact { IfOk result (λ value.
        variant_json (codes "Put") (view content.now) ≡ op_json value) }
{
    let (key, value) = pair_of(alloc, content, "key", "value")?;
    Ok(Op::Put { key, value })
}

fn op_del(alloc: Global, content: &Json) -> Result<Op, RowError>
    ensures finds { (key : _) → FitsOp (Op.Del key)
        → variant_json (codes "Del") (view content.now) ≡ op_json (Op.Del key)
        → Finds (Op.Del key) result }
    ensures exact { IfOk result (λ value.
        variant_json (codes "Del") (view content.now) ≡ op_json value) }
{
    let key = single_of(alloc, content, "key")?;
    Ok(Op::Del { key })
}

fn op_add(alloc: Global, content: &Json) -> Result<Op, RowError>
    ensures finds { (key : _) (value : _) → FitsOp (Op.Add key value)
        → variant_json (codes "Add") (view content.now) ≡ op_json (Op.Add key value)
        → Finds (Op.Add key value) result }
    ensures exact { IfOk result (λ value.
        variant_json (codes "Add") (view content.now) ≡ op_json value) }
{
    let (key, value) = pair_of(alloc, content, "key", "value")?;
    Ok(Op::Add { key, value })
}

fn op_cas(alloc: Global, content: &Json) -> Result<Op, RowError>
    ensures finds { (key : _) (expect : _) (value : _) → FitsOp (Op.Cas key expect value)
        → variant_json (codes "Cas") (view content.now) ≡ op_json (Op.Cas key expect value)
        → Finds (Op.Cas key expect value) result }
    ensures exact { IfOk result (λ value.
        variant_json (codes "Cas") (view content.now) ≡ op_json value) }
{
    let (expect, key, value) = triple_of(alloc, content, "expect", "key", "value")?;
    Ok(Op::Cas { key, expect, value })
}

impl FromJson for Op {
    ghost json_of = { op_json };

    ghost Fits = { FitsOp };

    fn from_json(alloc: Global, json: &Json) -> Result<Op, RowError> {
        let Some((name, content)) = variant_parts(json) else {
            return Err(RowError::NoRow);
        };
        match name {
            "Get" => op_get(alloc, content),
            "Put" => op_put(alloc, content),
            "Del" => op_del(alloc, content),
            "Add" => op_add(alloc, content),
            "Cas" => op_cas(alloc, content),
            _ => Err(RowError::NoRow),
        }
    }
}

impl FromJson for Reply {
    ghost json_of = { reply_json };

    ghost Fits = { FitsReply };

    fn from_json(alloc: Global, json: &Json) -> Result<Reply, RowError> {
        let old = single_of(alloc, json, "old")?;
        Ok(Reply { old })
    }
}
