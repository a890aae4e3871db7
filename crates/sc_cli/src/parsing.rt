//! The program's arguments, parsed by clap.
ghost use Rattle.std.specs.Prelude.{◌≡◌, ◌≢◌, ◌≤◌, true, false, map, string_bytes, None, Some, IfOk, IfSome};
ghost use Rattle.std.specs.List.{list_any};
ghost use Rattle.std.specs.Option.{option_map};
ghost use Rattle.sc_texts.specs.lines.Words.{count_in, nth};
ghost use Rattle.clap.specs.Words.{app_of, first_of, found_of, kind_of, rows_of, subcommand_rows_of};
ghost use Rattle.clap.specs.declared.builder.command.Command.TheViews.{out-Command};
ghost use Rattle.sc_cli.specs.Subcommands.{has_dash, is_known, is_plain, make_of, subcommand_by, IsInRange};
ghost use Rattle.sc_cli.specs.Subcommands.{is_run, is_journal, is_audit, is_pool, is_explain, reads_input, is_on_input, scan_of, whole_circle};
ghost use Rattle.sc_cli.specs.Commands.{make_app, arc_app, scan_app, bare_app, with_bare_subcommand, bare_subcommands_app, scatter_app};
ghost use Rattle.sc_cli.specs.Commands.{make_in, scan_in, subcommand_as, subcommand_in};
ghost use Rattle.sc_cli.specs.declared.subcommands.Subcommand.TheVariants.{Run, Journal, Audit, Pool, Explain};

use crate::subcommands::{Sight, Subcommand};
use clap::error::ErrorKind;
use clap::{Arg, ArgMatches, Command, Error};
use sc_base::{OutOfMemory, RingArc, read_number};
use sc_texts::{count_in, is_text};
use std::alloc::{AllocError, Global};

const MOST_REQUESTS: u32 = 1_000;

const LAST_SEED: u64 = 18_446_744_073_709_551_615;

// The greatest start of an arc, and the greatest number of rows.
const LAST_NUMBER: u64 = 4_294_967_295;

const WHOLE_CIRCLE: u64 = 4_294_967_296;

const MOST_PAIRS: u32 = 1_000_000;

// Returns the first argument, or the empty text where there is none.
fn first_argument(words: &[String]) -> &[u8]
    ensures { result.now ≡ nth (map string_bytes words.now) 0 }
{
    if 0 < words.len() {
        words[0].as_bytes()
    } else {
        b""
    }
}

fn has_dash(word: &str) -> bool
    ensures { result ≡ has_dash word.now }
{
    let bytes = word.as_bytes();
    !bytes.is_empty() && bytes[0] == b'-'
}

fn any_dash(words: &[String]) -> bool
    ensures { result ≡ list_any (λ word. has_dash (string_bytes word)) words.now }
{
    words.iter().any(|word| has_dash(word.as_str()))
}

fn have_dash(words: &[String]) -> bool
    ensures { result ≡ list_any has_dash (map string_bytes words.now) }
{
    any_dash(words)
}

// Returns whether a word is one of the seven subcommands.
fn is_known(word: &[u8]) -> bool
    ensures { result ≡ is_known word.now }
{
    is_text(word, b"run")
        || is_text(word, b"journal")
        || is_text(word, b"audit")
        || is_text(word, b"pool")
        || is_text(word, b"explain")
        || is_text(word, b"make")
        || is_text(word, b"scan")
}

// Returns whether the first argument is one of the seven subcommands, and none begins with a dash.
fn is_plain(words: &[String]) -> bool
    ensures { result ≡ is_plain (map string_bytes words.now) }
{
    is_known(first_argument(words)) && !have_dash(words)
}

fn make_command<'a>(alloc: Global) -> Result<Command<'a>, AllocError>
    ensures app { IfOk result (λ command. app_of command ≡ make_app) }
    ensures local { IfOk result (λ command. (out-Command command).has_globals ≡ false) }
{
    let count = Arg::new(alloc, "N").required(true);
    let seed = Arg::new(alloc, "S").required(true);
    Command::new(alloc, "make").arg(count)?.arg(seed)
}

// Returns the subcommand `scan` with the first two of its arguments.
fn arc_command<'a>(alloc: Global) -> Result<Command<'a>, AllocError>
    ensures app { IfOk result (λ command. app_of command ≡ arc_app) }
    ensures local { IfOk result (λ command. (out-Command command).has_globals ≡ false) }
{
    let lo = Arg::new(alloc, "LO").required(true);
    let len = Arg::new(alloc, "LEN").required(true);
    Command::new(alloc, "scan").arg(lo)?.arg(len)
}

fn scan_command<'a>(alloc: Global) -> Result<Command<'a>, AllocError>
    ensures app { IfOk result (λ command. app_of command ≡ scan_app) }
    ensures local { IfOk result (λ command. (out-Command command).has_globals ≡ false) }
{
    let rows = Arg::new(alloc, "R").required(true);
    let most = Arg::new(alloc, "MOST").required(true);
    arc_command(alloc)?.arg(rows)?.arg(most)
}

fn bare_command<'a>(alloc: Global) -> Command<'a>
    ensures { app_of result ≡ bare_app }
{
    Command::new(alloc, "scatter").no_binary_name(true)
}

// Adds a subcommand that has no arguments.
fn with_bare_subcommand<'a>(
    alloc: Global,
    command: Command<'a>,
    name: &'a str,
) -> Result<Command<'a>, AllocError>
    ensures { IfOk result (λ more. app_of more ≡ with_bare_subcommand (app_of command.entry) name.now) }
{
    command.subcommand(Command::new(alloc, name))
}

fn bare_subcommands<'a>(alloc: Global) -> Result<Command<'a>, AllocError>
    ensures { IfOk result (λ command. app_of command ≡ bare_subcommands_app) }
{
    let run = with_bare_subcommand(alloc, bare_command(alloc), "run")?;
    let journal = with_bare_subcommand(alloc, run, "journal")?;
    let audit = with_bare_subcommand(alloc, journal, "audit")?;
    let pool = with_bare_subcommand(alloc, audit, "pool")?;
    with_bare_subcommand(alloc, pool, "explain")
}

fn command<'a>(alloc: Global) -> Result<Command<'a>, AllocError>
    ensures { IfOk result (λ command. app_of command ≡ scatter_app) }
{
    let make = make_command(alloc)?;
    let scan = scan_command(alloc)?;
    bare_subcommands(alloc)?.subcommand(make)?.subcommand(scan)
}

fn make_of(count: &str, seed: &str) -> Option<Subcommand>
    ensures { result ≡ make_of count.now seed.now }
{
    let n = count_in(count.as_bytes(), MOST_REQUESTS)?;
    let seed = read_number(seed.as_bytes(), LAST_SEED)?;
    Some(Subcommand::Make { n, seed })
}

// Returns the length of an arc that a word spells, from 1 to the whole circle.
fn length_in(word: &[u8]) -> Option<u64>
    ensures same { result ≡ count_in whole_circle word.now }
    ensures bounds { IfSome result (λ n. (1 ≤ n) × (n ≤ whole_circle)) }
{
    match read_number(word, WHOLE_CIRCLE) {
        Some(n) if 1 <= n => Some(n),
        _ => None,
    }
}

fn scan_of(lo: &str, len: &str, rows: &str, most: &str) -> Option<Subcommand>
    ensures { result ≡ scan_of lo.now len.now rows.now most.now }
{
    let lo = read_number(lo.as_bytes(), LAST_NUMBER)?;
    let len = length_in(len.as_bytes())?;
    let rows = read_number(rows.as_bytes(), LAST_NUMBER)?;
    let most = count_in(most.as_bytes(), MOST_PAIRS)?;
    let Ok(arc) = RingArc::try_new(lo as u32, len) else {
        unreachable!()
    };
    Some(Subcommand::Scan(Sight {
        arc,
        rows: rows as u32,
        most,
    }))
}

// Returns the value of an argument, if there is one.
fn value_of<'a>(matches: &ArgMatches<'a>, id: &str) -> Option<&'a str>
    ensures { option_map (λ value. value.now) result
        ≡ first_of id.now (rows_of (found_of matches.now)) }
{
    matches.get_str(id)
}

#[tactic(auto, using(crate::proofs::Values::no_count, crate::proofs::Values::no_seed, crate::proofs::Values::both))]
fn make_in(matches: &ArgMatches) -> Option<Subcommand>
    ensures { result ≡ make_in (rows_of (found_of matches.now)) }
{
    let Some(count) = value_of(matches, "N") else {
        return None;
    };
    let Some(seed) = value_of(matches, "S") else {
        return None;
    };
    make_of(count, seed)
}

#[tactic(auto, using(crate::proofs::Values::no_lo, crate::proofs::Values::no_len, crate::proofs::Values::no_rows, crate::proofs::Values::no_most, crate::proofs::Values::all_four))]
fn scan_in(matches: &ArgMatches) -> Option<Subcommand>
    ensures { result ≡ scan_in (rows_of (found_of matches.now)) }
{
    let Some(lo) = value_of(matches, "LO") else {
        return None;
    };
    let Some(len) = value_of(matches, "LEN") else {
        return None;
    };
    let Some(rows) = value_of(matches, "R") else {
        return None;
    };
    let Some(most) = value_of(matches, "MOST") else {
        return None;
    };
    scan_of(lo, len, rows, most)
}

fn subcommand_as(count: usize, name: &str, matches: &ArgMatches) -> Option<Subcommand>
    ensures { result ≡ subcommand_as count name.now (rows_of (found_of matches.now)) }
{
    if count == 1 && is_text(name.as_bytes(), b"run") {
        return Some(Subcommand::Run);
    }
    if count == 1 && is_text(name.as_bytes(), b"journal") {
        return Some(Subcommand::Journal);
    }
    if count == 1 && is_text(name.as_bytes(), b"audit") {
        return Some(Subcommand::Audit);
    }
    if count == 1 && is_text(name.as_bytes(), b"pool") {
        return Some(Subcommand::Pool);
    }
    if count == 1 && is_text(name.as_bytes(), b"explain") {
        return Some(Subcommand::Explain);
    }
    if count == 3 && is_text(name.as_bytes(), b"make") {
        return make_in(matches);
    }
    if count == 5 && is_text(name.as_bytes(), b"scan") {
        return scan_in(matches);
    }
    None
}

fn subcommand_in(count: usize, matches: &ArgMatches) -> Option<Subcommand>
    ensures { result ≡ subcommand_in count (subcommand_rows_of matches.now) }
{
    let Some((name, inner)) = matches.subcommand() else {
        return None;
    };
    subcommand_as(count, name, inner)
}

// Returns what arguments ask for at which clap failed: nothing, unless clap ran out of memory.
fn refused(error: &Error) -> Result<Option<Subcommand>, OutOfMemory>
    ensures { IfOk result (λ asked. (asked ≡ None) × (kind_of error.now ≢ ErrorKind.OutOfMemory)) }
{
    match error.kind() {
        ErrorKind::OutOfMemory => Err(OutOfMemory),
        _ => Ok(None),
    }
}

fn parsed(alloc: Global, words: &[String]) -> Result<Option<Subcommand>, OutOfMemory>
    requires { is_plain (map string_bytes words.now) ≡ true }
    ensures { IfOk result (λ asked. asked ≡ subcommand_by (map string_bytes words.now)) }
{
    let command = command(alloc)?;
    match command.try_get_matches_from(words) {
        Ok(matches) => Ok(subcommand_in(words.len(), &matches)),
        Err(error) => refused(&error),
    }
}

/// Returns what the arguments behind a program's name ask for: `run`, `journal`, `audit`, `pool`,
/// `explain`, `make N S` with N from 1 to 1,000 and S from 0 to 2^64 - 1, or `scan LO LEN R MOST`
/// with LO and R from 0 to 2^32 - 1, LEN from 1 to 2^32 and MOST from 1 to 1,000,000. None where
/// they are none of these. Fails only where it runs out of memory.
///
/// Arguments of which the first is no subcommand, or of which one begins with a dash, are refused
/// as they are; all others are parsed by clap.
pub fn subcommand_by(alloc: Global, words: &[String]) -> Result<Option<Subcommand>, OutOfMemory>
    ensures asked { IfOk result (λ asked. asked ≡ subcommand_by (map string_bytes words.now)) }
    ensures range { IfOk result (λ asked. IfSome asked IsInRange) }
    ensures run { IfOk result
        (λ asked. asked ≡ Some Run → is_run (map string_bytes words.now) ≡ true) }
    ensures journal { IfOk result
        (λ asked. asked ≡ Some Journal → is_journal (map string_bytes words.now) ≡ true) }
    ensures audit { IfOk result
        (λ asked. asked ≡ Some Audit → is_audit (map string_bytes words.now) ≡ true) }
    ensures pool { IfOk result
        (λ asked. asked ≡ Some Pool → is_pool (map string_bytes words.now) ≡ true) }
    ensures explain { IfOk result
        (λ asked. asked ≡ Some Explain → is_explain (map string_bytes words.now) ≡ true) }
    ensures reads { IfOk result (λ asked. IfSome asked
        (λ what. is_on_input what ≡ reads_input (map string_bytes words.now))) }
{
    if !is_plain(words) {
        return Ok(None);
    }
    parsed(alloc, words)
}
