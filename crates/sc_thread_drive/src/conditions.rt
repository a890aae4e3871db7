//! The condition on a schedule for `drive`, as a test.
ghost use Rattle.std.specs.Prelude.{◌≡◌, ◌↔◌, ℕ, IsTrue, Contains};
ghost use Rattle.sc_thread_drive.specs.Goings.{SparesGoers};

use sc_actor::Line;

// Returns whether the line lets this actor crash.
fn is_crash_of<O>(line: &Line<O>, who: u32) -> bool
    ensures { IsTrue result ↔ (line.now ≡ Line.Crash who) }
{
    match line {
        Line::Crash { who: other } => *other == who,
        _ => false,
    }
}

// Returns whether one of the lines lets this actor crash.
fn lets_crash<O>(lines: &[Line<O>], who: u32) -> bool
    ensures { IsTrue result ↔ Contains lines.now (Line.Crash who) }
{
    for line in lines {
        if is_crash_of(line, who) {
            return true;
        }
    }
    false
}

// Returns whether the line is no `go` line of an actor that one of the lines lets crash.
fn is_spared<O>(line: &Line<O>, lines: &[Line<O>]) -> bool
    ensures { IsTrue result ↔
        ((who : ℕ) → line.now ≡ Line.Go who → ¬ Contains lines.now (Line.Crash who)) }
{
    match line {
        Line::Go { who } => !lets_crash(lines, *who),
        _ => true,
    }
}

/// Returns whether no actor that has a `go` line has a `crash` line.
pub fn goers_are_spared<O>(lines: &[Line<O>]) -> bool
    ensures { IsTrue result ↔ SparesGoers lines.now }
{
    for line in lines {
        if !is_spared(line, lines) {
            return false;
        }
    }
    true
}
