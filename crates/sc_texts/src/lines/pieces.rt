//! Lines cut into words, and words into parts.
ghost use Rattle.std.specs.Prelude.{◌≡◌, map, IfOk};
ghost use Rattle.sc_texts.specs.lines.Words.{pieces, words_of};

use std::alloc::{AllocError, Global};

/// Returns the words of a line: the parts between blanks and tabs that are not empty.
pub fn words_of(alloc: Global, line: &[u8]) -> Result<Vec<&[u8]>, AllocError>
    ensures { IfOk result (λ words. map (λ word. word.now) words.items ≡ words_of line.now) }
{
    line.split(|byte| *byte == b' ' || *byte == b'\t')
        .filter(|word| !word.is_empty())
        .collect(alloc)
}

/// Returns the parts of a word between dots: one more than there are dots.
pub fn dotted_parts(alloc: Global, word: &[u8]) -> Result<Vec<&[u8]>, AllocError>
    ensures { IfOk result (λ parts. map (λ part. part.now) parts.items ≡ pieces 46 word.now) }
{
    word.split(|byte| *byte == b'.').collect(alloc)
}
