//! One ledger, row by row.
ghost use Rattle.std.specs.Prelude.{◌≡◌, ◌≤◌, min, ◌^◌, ◌-◌};

use crate::notes::{Note, notes};
use sc_actor::{Event, Row};
use sc_thread_ledger::{Ledger, PostError, Spot, Unkept};
use std::alloc::Global;
use std::mem::forget;
use std::process::Abort;

// The event of a row, in brief.
#[derive(Clone, Copy)]
enum When {
    Deliver(u32),
    Tick,
    Go,
    Crash,
    Drop(u32),
    Again(u32),
}

fn event_of(when: When) -> Event<u32> {
    match when {
        When::Deliver(mail) => Event::Deliver(mail),
        When::Tick => Event::Tick,
        When::Go => Event::Go,
        When::Crash => Event::Crash,
        When::Drop(mail) => Event::Drop(mail),
        When::Again(mail) => Event::Again(mail),
    }
}

type Notes = Ledger<Note, u32>;

// Returns the counted bytes of the journal, where a row was refused since the journal is full.
fn full_at(rt: &impl Abort, kept: &Result<(), Unkept<Note, u32>>) -> Option<u64> {
    match kept {
        Ok(()) => None,
        Err(unkept) => match unkept.why {
            PostError::JournalFull { bytes } => Some(bytes),
            PostError::OutOfMemory => panic!(rt; "memory"),
        },
    }
}

// Appends a row with one mail of this size to each of these receivers, and returns the counted
// bytes of the journal where the row is refused.
fn refusal(
    rt: &impl Abort,
    alloc: Global,
    ledger: &mut Notes,
    by: (u32, When),
    sent: (&[u32], u64),
    limit: u64,
) -> Option<u64>
    requires { limit ≤ 2 ^ 30 }
{
    let row = Row {
        who: by.0,
        event: event_of(by.1),
        sent: notes(rt, alloc, sent.0, sent.1),
    };
    let kept = ledger.append(row, limit);
    let full = full_at(rt, &kept);
    forget(kept);
    full
}

// Returns whether a row with one mail to each of these receivers is kept.
fn keeps(
    rt: &impl Abort,
    alloc: Global,
    ledger: &mut Notes,
    who: u32,
    when: When,
    receivers: &[u32],
) -> bool {
    refusal(rt, alloc, ledger, (who, when), (receivers, 0), 1 << 20).is_none()
}

type Three = (Option<u32>, Option<u32>, Option<u32>);

// Returns the numbers of the first three mails that are pending for actor 1.
fn first_three(ledger: &Notes) -> Three {
    (
        ledger.kth(2, 1, 1),
        ledger.kth(2, 1, 2),
        ledger.kth(2, 1, 3),
    )
}

// An actor, its event, how many mails it sends to actor 1, and what is pending for actor 1 then.
type Step = (u32, When, usize, Three);

const STEPS: &[Step] = &[
    (2, When::Go, 3, (Some(1), Some(2), Some(3))),
    (1, When::Deliver(2), 0, (Some(1), Some(3), None)),
    (0, When::Again(2), 0, (Some(1), Some(2), Some(3))),
    (0, When::Again(1), 0, (Some(1), Some(1), Some(2))),
    (0, When::Drop(1), 0, (Some(1), Some(2), Some(3))),
    (1, When::Crash, 0, (None, None, None)),
    (0, When::Again(3), 0, (None, None, None)),
];

// Returns whether a step's row is kept, and leaves what it should.
fn is_step(rt: &impl Abort, alloc: Global, ledger: &mut Notes, step: Step) -> bool {
    let (who, when, mails, pending) = step;
    let to = [1u32, 1, 1];
    let receivers = to.as_slice().get(..mails).unwrap_or(&[]);
    keeps(rt, alloc, ledger, who, when, receivers) && first_three(ledger) == pending
}

fn check_numbers(rt: &impl Abort, alloc: Global, ledger: &mut Notes, steps: &[Step]) {
    for step in steps {
        assert!(rt; is_step(rt, alloc, ledger, *step));
    }
    assert!(rt; !ledger.may_repeat(2, 1));
    assert!(rt; ledger.bytes() == 7 * 64 + 3 * 256);
}

// Checks that each row of actor 1 but the first is refused.
fn check_limit(rt: &impl Abort, alloc: Global, ledger: &mut Notes) {
    let desk = refusal(rt, alloc, ledger, (1, When::Go), (&[0], 5), 325);
    assert!(rt; desk.is_none() && ledger.kth(2, 0, 1).is_none() && ledger.sent() == 1);
    let more = refusal(rt, alloc, ledger, (1, When::Tick), (&[], 0), 388);
    assert!(rt; more == Some(325));
    let large = (&[2u32, 2] as &[u32], u64::MAX);
    let most = refusal(rt, alloc, ledger, (1, When::Tick), large, 1 << 30);
    assert!(rt; most == Some(325) && ledger.len() == 1);
}

// Returns the next word of a fixed sequence that looks random.
fn next_word(word: u64) -> u64 {
    word.wrapping_mul(6_364_136_223_846_793_005)
        .wrapping_add(1_442_695_040_888_963_407)
}

// Returns an event of any kind, for a mail of any number up to 15. Crashes are rare.
fn random_event(word: u64) -> When {
    let number = (word >> 40) as u32 % 16;
    match (word >> 33) % 16 {
        0..=4 => When::Deliver(number),
        5..=6 => When::Drop(number),
        7..=10 => When::Again(number),
        11 => When::Crash,
        _ => When::Tick,
    }
}

// Returns whether a row of any kind is kept. It sends `mails` mails, at most two.
fn keeps_random(
    rt: &impl Abort,
    alloc: Global,
    ledger: &mut Notes,
    word: u64,
    mails: usize,
) -> bool {
    let to = [(word >> 50) as u32 % 5, (word >> 53) as u32 % 5];
    let who = (word >> 56) as u32 % 4;
    let sent = to.as_slice().get(..mails).unwrap_or(&[]);
    keeps(rt, alloc, ledger, who, random_event(word), sent)
}

// Checks that the queues and the scan find the same mail, for each actor and for all.
fn agree(rt: &impl Abort, alloc: Global, ledger: &Notes) {
    for who in 0..5u32 {
        for k in 1..6u32 {
            let scanned = ledger.kth_by_scan(alloc, 3, who, k).expect(rt, "memory");
            assert!(rt; ledger.kth(3, who, k) == scanned);
        }
    }
}

fn check_queues(rt: &impl Abort, alloc: Global, ledger: &mut Notes) {
    let mut word = 20_261_127u64;
    for i in 0..80u32 {
        word = next_word(word);
        let mails = if i % 4 == 0 { 2 } else { 0 };
        assert!(rt; keeps_random(rt, alloc, ledger, word, mails));
        agree(rt, alloc, ledger);
    }
}

// Returns each copy's number, receiver and place, as the digits of one number.
fn digits_of(spots: &[Spot]) -> u64 {
    let mut digits = 0u64;
    for spot in spots {
        digits = digits.wrapping_mul(10).wrapping_add(spot.number as u64);
        digits = digits.wrapping_mul(10).wrapping_add(spot.who as u64);
        digits = digits.wrapping_mul(10).wrapping_add(spot.k as u64);
    }
    digits
}

// Returns the receiver and the size of the mail with this number.
fn mail_of(rt: &impl Abort, alloc: Global, ledger: &Notes, number: u32) -> Option<(u32, u64)> {
    let found = ledger.mail(alloc, number).expect(rt, "memory");
    let sent = match &found {
        Some(note) => Some((note.to, note.size)),
        None => None,
    };
    forget(found);
    sent
}

// Returns how many mails were sent, and the copy for one of these actors that a word picks, as the
// digits of one number.
fn glanced(
    rt: &impl Abort,
    alloc: Global,
    ledger: &Notes,
    actors: u32,
    whos: &[u32],
    word: u32,
) -> u64 {
    let glance = ledger
        .glance(alloc, actors, whos, word)
        .expect(rt, "memory");
    let sent = u64::from(glance.sent);
    match glance.spot {
        Some(spot) => sent.wrapping_mul(1000).wrapping_add(digits_of(&[spot])),
        None => sent,
    }
}

// Checks a look and glances where four mails were sent, and the first was repeated.
fn check_look(rt: &impl Abort, alloc: Global, ledger: &mut Notes) {
    assert!(rt; keeps(rt, alloc, ledger, 1, When::Go, &[2, 1, 0, 2]));
    assert!(rt; keeps(rt, alloc, ledger, 0, When::Again(1), &[]));
    assert!(rt; mail_of(rt, alloc, ledger, 4) == Some((2, 0)));
    let look = ledger.look(alloc, 2).expect(rt, "memory");
    let copies = digits_of(look.pending.as_slice());
    let counts = (look.sent, look.pending.len());
    forget(look);
    assert!(rt; counts == (4, 4) && copies == 121_122_211_423);
    assert!(rt; glanced(rt, alloc, ledger, 2, &[1, 2], 5) == 4_122);
    assert!(rt; glanced(rt, alloc, ledger, 2, &[2, 1], 6) == 4_211);
    assert!(rt; glanced(rt, alloc, ledger, 2, &[2], 5) == 4_423);
    assert!(rt; glanced(rt, alloc, ledger, 2, &[3], 5) == 4);
}

// Checks glances where the ledger has no queues for this number of actors, and finds its mail by
// the counts.
fn check_pick(rt: &impl Abort, alloc: Global, ledger: &mut Notes) {
    assert!(rt; keeps(rt, alloc, ledger, 1, When::Go, &[2, 1, 3, 2]));
    assert!(rt; keeps(rt, alloc, ledger, 0, When::Again(1), &[]));
    assert!(rt; glanced(rt, alloc, ledger, 3, &[1, 2, 3], 8) == 4_331);
    assert!(rt; glanced(rt, alloc, ledger, 3, &[2], 2) == 4_423);
}

// What is checked of a ledger.
#[derive(Clone, Copy)]
enum Story {
    Numbers,
    Limit,
    Queues,
    Look,
    Pick,
}

// Checks a story with an empty ledger of `actors` actors.
fn come_true(rt: &impl Abort, alloc: Global, actors: u32, story: Story) {
    let mut ledger: Notes = Ledger::new(alloc, actors);
    match story {
        Story::Numbers => check_numbers(rt, alloc, &mut ledger, STEPS),
        Story::Limit => check_limit(rt, alloc, &mut ledger),
        Story::Queues => check_queues(rt, alloc, &mut ledger),
        Story::Look => check_look(rt, alloc, &mut ledger),
        Story::Pick => check_pick(rt, alloc, &mut ledger),
    }
    forget(ledger);
}

#[test]
fn mail_is_pending_by_its_number(rt: HostRuntime) {
    come_true(&rt, rt.alloc(), 2, Story::Numbers);
}

#[test]
fn limit_is_met_and_passed(rt: HostRuntime) {
    come_true(&rt, rt.alloc(), 2, Story::Limit);
}

#[test]
fn queues_and_scan_agree(rt: HostRuntime) {
    come_true(&rt, rt.alloc(), 3, Story::Queues);
}

#[test]
fn look_returns_each_copy(rt: HostRuntime) {
    come_true(&rt, rt.alloc(), 2, Story::Look);
}

#[test]
fn a_copy_is_picked_without_queues(rt: HostRuntime) {
    come_true(&rt, rt.alloc(), 2, Story::Pick);
}
