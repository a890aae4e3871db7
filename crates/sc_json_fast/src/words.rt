//! Fixed words of a text.
ghost use Rattle.std.specs.Prelude.{◌≡◌, ◌++◌, IfSome};

/// Returns the bytes behind a fixed word that begins the bytes.
#[inline]
pub(crate) fn behind<'a>(bytes: &'a [u8], word: &[u8]) -> Option<&'a [u8]>
    ensures { IfSome result (λ rest. bytes.now ≡ word.now ++ rest.now) }
{
    if bytes.len() < word.len() {
        return None;
    }
    let (prefix, rest) = bytes.split_at(word.len());
    if prefix == word { Some(rest) } else { None }
}
