//! A file, divided at its line `journal`.
ghost use Rattle.std.specs.Prelude.{◌≡◌, ◌≤◌, ◌==◌, ◌+◌, ◌<◌, ◌^◌, length, position, MatchOption, IfSome, None};
ghost use Rattle.sc_json_journal.specs.file.Files.{divider_at, has_empty_end, scenario_text, IsCut};

use memchr::memchr;
use sc_texts::is_text;

/// The parts of a file before and behind its line `journal`.
#[derive(Clone, Copy)]
pub struct StoredText<'a> {
    /// The scenario's text.
    pub scenario: &'a [u8],
    /// The number of lines before the line `journal`.
    pub lines: u32,
    /// The lines of the rows.
    pub rows: &'a [u8],
}

/// Returns the place of the first line feed.
#[tactic(auto, using(crate::proofs::FileProofs::Feeds::first_is))]
pub(crate) fn feed_at(text: &[u8]) -> Option<usize>
    ensures { result ≡ position (λ byte. byte == 10) text.now }
{
    memchr(b'\n', text)
}

// Returns the numbers of bytes and lines before the line `journal`, if there is one.
fn divider_at(file: &[u8]) -> Option<(usize, u32)>
    requires { length file.now < 2 ^ 32 }
    ensures prefix { result ≡ divider_at file.now }
    ensures within { IfSome result
        (λ prefix. (prefix.0 + 8 ≤ length file.now) × (prefix.1 ≤ prefix.0)) }
{
    let mut at = 0usize;
    let mut lines = 0u32;
    while let Some(len) = feed_at(&file[at..]) {
        if is_text(&file[at..at + len], b"journal") {
            return Some((at, lines));
        }
        at += len + 1;
        lines += 1;
    }
    None
}

// Returns whether the last line is empty, or there are fewer than two bytes.
fn has_empty_end(prefix: &[u8]) -> bool
    ensures { result ≡ has_empty_end prefix.now }
{
    prefix.len() < 2 || prefix[prefix.len() - 2] == b'\n'
}

// Returns the lines without the last line feed where the last line is not empty.
fn scenario_text(prefix: &[u8]) -> &[u8]
    ensures { result.now ≡ scenario_text prefix.now }
{
    if has_empty_end(prefix) {
        prefix
    } else {
        &prefix[..prefix.len() - 1]
    }
}

/// Divides a file at its first line `journal`. Returns `None` where none of its lines that a line
/// feed ends is `journal`.
pub fn cut(file: &[u8]) -> Option<StoredText<'_>>
    requires { length file.now < 2 ^ 32 }
    ensures cut { MatchOption result (divider_at file.now ≡ None)
        (λ cut. IsCut file.now cut.scenario.now cut.lines cut.rows.now) }
    ensures within { IfSome result
        (λ cut. cut.lines + length cut.rows.now + 8 ≤ length file.now) }
{
    let (bytes, lines) = divider_at(file)?;
    Some(StoredText {
        scenario: scenario_text(&file[..bytes]),
        lines,
        rows: &file[bytes + 8..],
    })
}
