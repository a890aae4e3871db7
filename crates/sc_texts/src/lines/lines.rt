//! The lines of a text.
ghost use Rattle.std.specs.Prelude.{◌≡◌, ◌<◌, ◌-◌, ◌==◌, ◌∷◌, [], true, length, get_or, map, position, IfSome, MatchOption};
ghost use Rattle.sc_texts.specs.lines.Words.{words_of};
ghost use Rattle.sc_texts.specs.lines.Lines.{lines_in, trimmed, is_skipped, has_bad_byte};

// Returns the index of the first line feed.
fn line_end(text: &[u8]) -> Option<usize>
    ensures { result ≡ position (λ byte. byte == 10) text.now }
{
    text.iter().position(|byte| *byte == b'\n')
}

/// Returns the first line of a text that is not empty, and the text after it. `is_long` says that
/// the text is cut from one with too many bytes: then only a line that a line feed ends counts,
/// and `None` is returned where there is no more such line.
#[tactic(auto, using(crate::proofs::LinesProofs::Cuts::lines_none, crate::proofs::LinesProofs::Cuts::lines_last))]
pub fn next_line(is_long: bool, text: &[u8]) -> Option<(&[u8], &[u8])>
    requires { 0 < length text.now }
    ensures lines { MatchOption result ((is_long ≡ true) × (lines_in is_long text.now ≡ []))
        (λ parts. lines_in is_long text.now ≡ parts.0.now ∷ lines_in is_long parts.1.now) }
    ensures shorter { IfSome result (λ parts. length parts.1.now < length text.now) }
{
    match line_end(text) {
        Some(at) => Some((&text[..at], &text[at + 1..])),
        None if is_long => None,
        None => Some((text, b"")),
    }
}

fn last_of(line: &[u8]) -> u8
    ensures { result ≡ get_or line.now (length line.now - 1) 0 }
{
    if line.is_empty() {
        0
    } else {
        line[line.len() - 1]
    }
}

/// Returns the line without the carriage return at its end.
pub fn trimmed(line: &[u8]) -> &[u8]
    ensures { result.now ≡ trimmed line.now }
{
    if last_of(line) == b'\r' {
        &line[..line.len().saturating_sub(1)]
    } else {
        line
    }
}

fn is_comment(line: &[u8]) -> bool
    ensures { result ≡ (get_or line.now 0 0 == 35) }
{
    !line.is_empty() && line[0] == b'#'
}

/// Returns whether a line with these words is a comment, or has no words.
pub fn is_skipped(line: &[u8], words: &[&[u8]]) -> bool
    requires { map (λ word. word.now) words.now ≡ words_of line.now }
    ensures { result ≡ is_skipped line.now }
{
    is_comment(line) || words.len() == 0
}

/// Returns whether a line has a byte that no line may have: one outside 32 to 126 that is no tab.
pub fn has_bad_byte(line: &[u8]) -> bool
    ensures { result ≡ has_bad_byte line.now }
{
    line.iter()
        .any(|byte| *byte != b'\t' && (*byte < 32 || 126 < *byte))
}
