//! Lists, read from their texts.
ghost use Rattle.std.specs.Prelude.{IfSome};
ghost use Rattle.sc_base.specs.Among.{Each};
ghost use Rattle.sc_json_text.specs.rows.Shapes.{list_json};
ghost use Rattle.sc_json_fast.specs.Prefixes.{TextBegins};

use crate::from_text::FromText;
use crate::parts::next;
use crate::words::behind;
use sc_base::Sequence;
use std::alloc::Global;

// Returns the items of an array that begins the bytes and is not empty.
fn items_at<T: FromText + Drop>(alloc: Global, bytes: &[u8]) -> Option<(Sequence<T>, &[u8])>
    ensures { IfSome result
        (λ found. TextBegins (list_json T.json_of) (Each T.Fits) bytes.now found.0 found.1.now) }
{
    let (first, mut rest) = next(alloc, bytes, b"[")?;
    let mut items = Sequence::new(alloc);
    items.push(first).ok()?;
    while let Some(more) = behind(rest, b",") {
        let (item, after) = T::take(alloc, more)?;
        items.push(item).ok()?;
        rest = after;
    }
    let rest = behind(rest, b"]")?;
    Some((items, rest))
}

impl<T: FromText + Drop> FromText for Sequence<T> {
    ghost json_of = { list_json T.json_of };

    ghost Fits = { Each T.Fits };

    fn take(alloc: Global, bytes: &[u8]) -> Option<(Sequence<T>, &[u8])> {
        match behind(bytes, b"[]") {
            Some(rest) => Some((Sequence::new(alloc), rest)),
            None => items_at(alloc, bytes),
        }
    }
}
