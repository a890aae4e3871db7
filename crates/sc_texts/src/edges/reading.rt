//! Reading to the end.
ghost use Rattle.std.specs.Prelude.{◌≡◌, ◌≤◌, ◌+◌, IfOk, IsErrOf};
ghost use Rattle.sc_texts.specs.edges.Causes.{Rose};
ghost use Rattle.sc_texts.specs.edges.Bytes.{TakesUpTo};

use crate::edges::traits::{Failed, Source};
use std::alloc::{AllocError, Global};

/// The reason why nothing was read: a read error, or out of memory.
#[derive(Clone, Copy, Debug, PartialEq, Eq)]
pub enum ReadError {
    /// A call of the source failed.
    Failed,
    /// There was no memory left.
    OutOfMemory,
}

// The most bytes that one call asks for.
const PIECE: usize = 4096;

/// Reads to the end of the input, or until `most` + 1 bytes were taken, by at most `most` + 2
/// calls of `take`.
///
/// Returns `Failed` only where the source's count of read errors rose in this call.
pub fn read_all<S: Source>(alloc: Global, source: &mut S, most: u64) -> Result<Vec<u8>, ReadError>
    ensures taken { IfOk result
        (λ bytes. TakesUpTo (S.left source.old) (S.left source.new) most bytes.items) }
    ensures failed { IsErrOf result ReadError.Failed →
        Rose (S.errors source.old) (S.errors source.new) }
    ensures later { S.errors source.old ≤ S.errors source.new }
    ensures calls { S.calls source.new ≤ S.calls source.old + (most + 2) }
{
    let mut bytes = Vec::new(alloc);
    let mut buf = [0u8; PIECE];
    while (bytes.len() as u64) <= most {
        let left = most - bytes.len() as u64;
        let want = if left < PIECE as u64 {
            left as usize + 1
        } else {
            PIECE
        };
        let n = match source.take(&mut buf[..want]) {
            Ok(n) => n,
            Err(Failed) => return Err(ReadError::Failed),
        };
        if n == 0 {
            break;
        }
        if let Err(AllocError) = bytes.extend_from_slice(&buf[..n]) {
            return Err(ReadError::OutOfMemory);
        }
    }
    Ok(bytes)
}
