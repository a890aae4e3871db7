//! A key as a register: what an operation makes of its value, and whether its ending allows the
//! value that it met.
ghost use Rattle.std.specs.Prelude.{◌≡◌, ◌||◌, IfOk};
ghost use Rattle.sc_words.specs.ideal.IdealDefinitions.{was};
ghost use Rattle.sc_linear_law.specs.LinearDefinitions.{fits, is_refused, value_after};
ghost use Rattle.sc_linear.specs.Search.{same_value};
ghost use Rattle.sc_linear.specs.Steps.{is_get, tells};

use sc_base::{Dup, Op, OutOfMemory, Value};
use sc_history::End;
use sc_linear_law::Request;
use std::alloc::Global;

/// Returns whether the value is there, and is this one.
fn was(expect: &Value, old: &Option<Value>) -> bool
    ensures { result ≡ was expect.now old.now }
{
    match old {
        Some(value) => value == expect,
        None => false,
    }
}

/// Returns whether two values of a key are the same, or there is none twice.
pub fn same_value(one: &Option<Value>, other: &Option<Value>) -> bool
    ensures { result ≡ same_value one.now other.now }
{
    match one {
        Some(value) => was(value, other),
        None => other.is_none(),
    }
}

fn is_refused(op: &Op, old: &Option<Value>) -> bool
    ensures { result ≡ is_refused op.now old.now }
{
    match op {
        Op::Get { .. } | Op::Put { .. } | Op::Del { .. } => false,
        Op::Add { .. } => old.is_some(),
        Op::Cas { expect, .. } => !was(expect, old),
    }
}

/// Returns whether a request's ending allows that its key had this value before it.
pub fn fits(request: &Request, old: &Option<Value>) -> bool
    ensures { result ≡ fits request.now.ending request.now.op old.now }
{
    match &request.ending {
        None => true,
        Some((_, End::Absent)) => old.is_none(),
        Some((_, End::Value(value))) => was(value, old),
        Some((_, End::Done)) => true,
        Some((_, End::No)) => is_refused(&request.op, old),
        Some((_, End::Fail)) => false,
        Some((_, End::Lost)) => true,
    }
}

/// Returns the value of a key after an operation on it.
pub fn value_after(
    op: &Op,
    old: &Option<Value>,
    alloc: Global,
) -> Result<Option<Value>, OutOfMemory>
    ensures { IfOk result (λ new. new ≡ value_after op.now old.now) }
{
    match op {
        Op::Get { .. } => old.dup(alloc),
        Op::Put { value, .. } => Ok(Some(value.dup(alloc)?)),
        Op::Del { .. } => Ok(None),
        Op::Add { value, .. } => match old {
            None => Ok(Some(value.dup(alloc)?)),
            Some(_) => old.dup(alloc),
        },
        Op::Cas { expect, value, .. } => {
            if was(expect, old) {
                Ok(Some(value.dup(alloc)?))
            } else {
                old.dup(alloc)
            }
        }
    }
}

/// Returns whether an operation leaves the value that it meets.
pub fn is_idle(op: &Op, old: &Option<Value>) -> bool
    ensures { result ≡ same_value (value_after op.now old.now) old.now }
{
    match op {
        Op::Get { .. } => true,
        Op::Put { value, .. } => was(value, old),
        Op::Del { .. } => old.is_none(),
        Op::Add { .. } => old.is_some(),
        Op::Cas { expect, value, .. } => {
            if was(expect, old) {
                was(value, old)
            } else {
                true
            }
        }
    }
}

/// Returns whether a request that leaves the value that it meets leaves whatever else it may meet:
/// it only reads, or its ending says what it met, or that it was refused.
pub fn is_settled(request: &Request) -> bool
    ensures { result ≡ (is_get request.now.op || tells request.now.ending) }
{
    if let Op::Get { .. } = &request.op {
        return true;
    }
    match &request.ending {
        None => false,
        Some((_, End::Absent | End::Value(_) | End::No)) => true,
        Some((_, End::Done | End::Fail | End::Lost)) => false,
    }
}
