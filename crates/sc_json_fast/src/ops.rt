//! Operations and replies, read from their texts.
ghost use Rattle.std.specs.Prelude.{IfSome};
ghost use Rattle.sc_json_text.specs.rows.Ops.{op_json, FitsOp, reply_json, FitsReply};
ghost use Rattle.sc_json_fast.specs.Prefixes.{TextBegins};

use crate::from_text::FromText;
use crate::parts::{one_of, three_of, two_of};
use sc_base::{Op, Reply};
use std::alloc::Global;

fn op_get(alloc: Global, bytes: &[u8]) -> Option<(Op, &[u8])>
    ensures { IfSome result
        (λ found. TextBegins op_json FitsOp bytes.now found.0 found.1.now) }
{
    let (key, rest) = one_of(alloc, bytes, br#"{"Get":{"key":"#, b"}}")?;
    Some((Op::Get { key }, rest))
}

fn op_put(alloc: Global, bytes: &[u8]) -> Option<(Op, &[u8])>
    ensures { IfSome result
        (λ found. TextBegins op_json FitsOp bytes.now found.0 found.1.now) }
{
    let (key, value, rest) = two_of(alloc, bytes, br#"{"Put":{"key":"#, br#","value":"#, b"}}")?;
    Some((Op::Put { key, value }, rest))
}

fn op_del(alloc: Global, bytes: &[u8]) -> Option<(Op, &[u8])>
    ensures { IfSome result
        (λ found. TextBegins op_json FitsOp bytes.now found.0 found.1.now) }
{
    let (key, rest) = one_of(alloc, bytes, br#"{"Del":{"key":"#, b"}}")?;
    Some((Op::Del { key }, rest))
}

fn op_add(alloc: Global, bytes: &[u8]) -> Option<(Op, &[u8])>
    ensures { IfSome result
        (λ found. TextBegins op_json FitsOp bytes.now found.0 found.1.now) }
{
    let (key, value, rest) = two_of(alloc, bytes, br#"{"Add":{"key":"#, br#","value":"#, b"}}")?;
    Some((Op::Add { key, value }, rest))
}

fn op_cas(alloc: Global, bytes: &[u8]) -> Option<(Op, &[u8])>
    ensures { IfSome result
        (λ found. TextBegins op_json FitsOp bytes.now found.0 found.1.now) }
{
    let (expect, key, value, rest) = three_of(
        alloc,
        bytes,
        br#"{"Cas":{"expect":"#,
        br#","key":"#,
        br#","value":"#,
        b"}}",
    )?;
    Some((Op::Cas { key, expect, value }, rest))
}

impl FromText for Op {
    ghost json_of = { op_json };

    ghost Fits = { FitsOp };

    fn take(alloc: Global, bytes: &[u8]) -> Option<(Op, &[u8])> {
        if let Some(found) = op_get(alloc, bytes) {
            return Some(found);
        }
        if let Some(found) = op_put(alloc, bytes) {
            return Some(found);
        }
        if let Some(found) = op_del(alloc, bytes) {
            return Some(found);
        }
        if let Some(found) = op_add(alloc, bytes) {
            return Some(found);
        }
        op_cas(alloc, bytes)
    }
}

impl FromText for Reply {
    ghost json_of = { reply_json };

    ghost Fits = { FitsReply };

    fn take(alloc: Global, bytes: &[u8]) -> Option<(Reply, &[u8])> {
        let (old, rest) = one_of(alloc, bytes, br#"{"old":"#, b"}")?;
        Some((Reply { old }, rest))
    }
}
