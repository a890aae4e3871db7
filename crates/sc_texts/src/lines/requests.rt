//! A client's requests.
ghost use Rattle.std.specs.Prelude.{◌≡◌, map};
ghost use Rattle.sc_texts.specs.lines.Reasons.{IsSaid};
ghost use Rattle.sc_texts.specs.lines.Requests.{request_in};

use crate::lines::kinds::RequestKind;
use crate::lines::reasons::{LineError, Reason};
use crate::lines::words::{key_in, nth, value_in};
use sc_base::Op;
use std::alloc::Global;

/// Returns the request of this kind that a line spells. The error is `BadKey` or `BadValue`, by
/// the first word that spells no key or value.
pub fn request_in(alloc: Global, kind: RequestKind, words: &[&[u8]]) -> Result<Op, LineError>
    ensures { IsSaid (request_in kind (map (λ word. word.now) words.now)) result }
{
    let key = key_in(alloc, nth(words, 1))?.ok_or(Reason::BadKey)?;
    match kind {
        RequestKind::Get => Ok(Op::Get { key }),
        RequestKind::Put => {
            let value = value_in(alloc, nth(words, 2))?.ok_or(Reason::BadValue)?;
            Ok(Op::Put { key, value })
        }
        RequestKind::Del => Ok(Op::Del { key }),
        RequestKind::Add => {
            let value = value_in(alloc, nth(words, 2))?.ok_or(Reason::BadValue)?;
            Ok(Op::Add { key, value })
        }
        RequestKind::Cas => {
            let expect = value_in(alloc, nth(words, 2))?.ok_or(Reason::BadValue)?;
            let value = value_in(alloc, nth(words, 3))?.ok_or(Reason::BadValue)?;
            Ok(Op::Cas { key, expect, value })
        }
    }
}
