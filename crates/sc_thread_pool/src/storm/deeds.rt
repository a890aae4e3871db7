//! What a step of a storm does.
ghost use Rattle.std.specs.Prelude.{◌≡◌, ◌<◌, ◌%◌, length, slice_get};
ghost use Rattle.sc_thread_ledger.specs.declared.spots.Look.{Look};
ghost use Rattle.sc_thread_ledger.specs.Spots.{is_one_of, copies_for, picked_spot};
ghost use Rattle.sc_thread_pool.specs.storm.Deeds.{copy_lost, copy_delivered, clock_ticked, mail_repeated, deed_by, deed_line, Shows};

use sc_actor::Line;
use sc_thread_ports::{Glance, Look, Spot};

/// What a step of a storm does: one event of the network or of an actor, or nothing.
#[derive(Clone, Copy, Debug, PartialEq, Eq)]
pub enum Deed {
    /// A pending copy of the mail with this number is lost: the k-th pending mail of the actor
    /// `who`, counted from 1.
    Drop { number: u32, who: u32, k: u32 },
    /// The mail with this number is repeated, if its receiver may get it.
    Again { number: u32 },
    /// The clock of the actor ticks, unless it has crashed.
    Tick { who: u32 },
    /// The k-th pending mail of the actor, counted from 1, is delivered.
    Deliver { who: u32, k: u32 },
    /// Nothing happens: no mail was pending that could be lost or delivered, or none was sent that
    /// could be repeated, or there is no actor.
    Nothing,
}

impl Deed {
    /// Returns the schedule line of one row that the deed is, if it is one. The step of a storm
    /// makes the row of that line, if the line makes one.
    pub fn line<O>(self) -> Option<Line<O>>
        ensures { result ≡ deed_line self }
    {
        match self {
            Deed::Drop { number: _, who, k } => Some(Line::Drop { who, k }),
            Deed::Again { number } => Some(Line::Again { mail: number }),
            Deed::Tick { who } => Some(Line::Tick { who }),
            Deed::Deliver { who, k } => Some(Line::Deliver { who, k }),
            Deed::Nothing => None,
        }
    }
}

/// Returns the deed by the first word modulo 16, `kind`, and by the second, `word`.
pub(crate) fn deed_by(look: &Look, actors: &[u32], kind: u32, word: u32) -> Deed
    ensures { result ≡ deed_by actors.now look.now kind word }
{
    match kind {
        0 => copy_lost(picked(look.pending.as_slice(), actors, word)),
        1 => mail_repeated(look.sent, word),
        2 => clock_ticked(actors, word),
        _ => copy_delivered(picked(look.pending.as_slice(), actors, word)),
    }
}

/// Returns the deed by the first word modulo 16, `kind`, and by the second, `word`, from a glance
/// at what is pending.
pub(crate) fn deed_shown(glance: &Glance, actors: &[u32], kind: u32, word: u32) -> Deed
    ensures { (look : Look) → Shows actors.now word look glance.now →
        result ≡ deed_by actors.now look kind word }
{
    match kind {
        0 => copy_lost(glance.spot),
        1 => mail_repeated(glance.sent, word),
        2 => clock_ticked(actors, word),
        _ => copy_delivered(glance.spot),
    }
}

fn is_one_of(actors: &[u32], who: u32) -> bool
    ensures { result ≡ is_one_of actors.now who }
{
    actors.iter().any(|actor| *actor == who)
}

fn count_for(actors: &[u32], spots: &[Spot]) -> usize
    ensures { result ≡ length (copies_for actors.now spots.now) }
{
    spots
        .iter()
        .filter(|spot| is_one_of(actors, spot.who))
        .count()
}

fn nth_for(actors: &[u32], spots: &[Spot], n: usize) -> Option<Spot>
    ensures { result ≡ slice_get (copies_for actors.now spots.now) n }
{
    spots
        .iter()
        .copied()
        .filter(|spot| is_one_of(actors, spot.who))
        .nth(n)
}

// Returns, of the copies for the actors, the one at the place `word` modulo their number, if there
// is any.
fn picked(spots: &[Spot], actors: &[u32], word: u32) -> Option<Spot>
    ensures { result ≡ picked_spot (copies_for actors.now spots.now) word }
{
    let many = count_for(actors, spots);
    if many == 0 {
        return None;
    }
    nth_for(actors, spots, word as usize % many)
}

fn copy_lost(spot: Option<Spot>) -> Deed
    ensures { result ≡ copy_lost spot }
{
    match spot {
        None => Deed::Nothing,
        Some(spot) => Deed::Drop {
            number: spot.number,
            who: spot.who,
            k: spot.k,
        },
    }
}

fn copy_delivered(spot: Option<Spot>) -> Deed
    ensures { result ≡ copy_delivered spot }
{
    match spot {
        None => Deed::Nothing,
        Some(spot) => Deed::Deliver {
            who: spot.who,
            k: spot.k,
        },
    }
}

fn mail_repeated(sent: u32, word: u32) -> Deed
    ensures { result ≡ mail_repeated sent word }
{
    if sent == 0 {
        return Deed::Nothing;
    }
    Deed::Again {
        number: 1 + word % sent,
    }
}

fn clock_ticked(actors: &[u32], word: u32) -> Deed
    ensures { result ≡ clock_ticked (slice_get actors.now (word % length actors.now)) }
{
    if actors.is_empty() {
        return Deed::Nothing;
    }
    let who = actors[word as usize % actors.len()];
    Deed::Tick { who }
}
