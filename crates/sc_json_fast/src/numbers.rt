//! Numbers, read from their texts.
ghost use Rattle.std.specs.Prelude.{◌≡◌, ◌<◌, ◌≤◌, ◌^◌, ◌++◌, decimal, length, IfSome};
ghost use Rattle.sc_json_text.specs.rows.Shapes.{number_json, option_json};
ghost use Rattle.sc_json_text.specs.rows.Held.{FitsU16, FitsU32, OptionFits};

use crate::from_text::FromText;
use crate::words::behind;
use sc_base::read_number;
use std::alloc::Global;

// Returns the number of digits at the beginning of the bytes.
fn digit_count(bytes: &[u8]) -> usize
    ensures { result ≤ length bytes.now }
{
    match bytes.iter().position(|byte| !byte.is_ascii_digit()) {
        Some(count) => count,
        None => bytes.len(),
    }
}

// Returns the number at the beginning of the bytes, at most `most`, without a leading zero.
fn number_at(bytes: &[u8], most: u64) -> Option<(u64, &[u8])>
    requires { most < 2 ^ 64 }
    ensures text { IfSome result (λ found. bytes.now ≡ decimal found.0 ++ found.1.now) }
    ensures within { IfSome result (λ found. found.0 ≤ most) }
{
    let (digits, rest) = bytes.split_at(digit_count(bytes));
    let number = read_number(digits, most)?;
    Some((number, rest))
}

impl FromText for u16 {
    ghost json_of = { number_json };

    ghost Fits = { FitsU16 };

    fn take(_alloc: Global, bytes: &[u8]) -> Option<(u16, &[u8])> {
        let (number, rest) = number_at(bytes, u16::MAX as u64)?;
        Some((number as u16, rest))
    }
}

impl FromText for u32 {
    ghost json_of = { number_json };

    ghost Fits = { FitsU32 };

    fn take(_alloc: Global, bytes: &[u8]) -> Option<(u32, &[u8])> {
        let (number, rest) = number_at(bytes, u32::MAX as u64)?;
        Some((number as u32, rest))
    }
}

impl FromText for Option<u16> {
    ghost json_of = { option_json number_json };

    ghost Fits = { OptionFits FitsU16 };

    fn take(alloc: Global, bytes: &[u8]) -> Option<(Option<u16>, &[u8])> {
        if let Some(rest) = behind(bytes, b"null") {
            return Some((None, rest));
        }
        let (number, rest) = u16::take(alloc, bytes)?;
        Some((Some(number), rest))
    }
}
