//! Numbers, read from JSON: the number is exactly the one that the JSON is, and other JSON is
//! refused.
ghost use Rattle.sc_json_text.specs.rows.Shapes.{number_json};
ghost use Rattle.sc_json_text.specs.rows.Held.{FitsU8, FitsU16, FitsU32, FitsU64};

use crate::errors::RowError;
use crate::from_json::{FromJson, Present};
use serde_json::Value as Json;
use std::alloc::Global;

impl FromJson for u8 {
    ghost json_of = { number_json };

    ghost Fits = { FitsU8 };

    fn from_json(_alloc: Global, json: &Json) -> Result<u8, RowError> {
        match json.as_u64() {
            Some(n) if n <= u8::MAX as u64 => Ok(n as u8),
            _ => Err(RowError::NoRow),
        }
    }
}

impl FromJson for u16 {
    ghost json_of = { number_json };

    ghost Fits = { FitsU16 };

    fn from_json(_alloc: Global, json: &Json) -> Result<u16, RowError> {
        match json.as_u64() {
            Some(n) if n <= u16::MAX as u64 => Ok(n as u16),
            _ => Err(RowError::NoRow),
        }
    }
}

impl FromJson for u32 {
    ghost json_of = { number_json };

    ghost Fits = { FitsU32 };

    fn from_json(_alloc: Global, json: &Json) -> Result<u32, RowError> {
        match json.as_u64() {
            Some(n) if n <= u32::MAX as u64 => Ok(n as u32),
            _ => Err(RowError::NoRow),
        }
    }
}

impl FromJson for u64 {
    ghost json_of = { number_json };

    ghost Fits = { FitsU64 };

    fn from_json(_alloc: Global, json: &Json) -> Result<u64, RowError> {
        match json.as_u64() {
            Some(n) => Ok(n),
            None => Err(RowError::NoRow),
        }
    }
}

impl Present for u8 {
    ghost is_there = { λ n fits none. Prim.cc };
}

impl Present for u16 {
    ghost is_there = { λ n fits none. Prim.cc };
}

impl Present for u32 {
    ghost is_there = { λ n fits none. Prim.cc };
}

impl Present for u64 {
    ghost is_there = { λ n fits none. Prim.cc };
}
