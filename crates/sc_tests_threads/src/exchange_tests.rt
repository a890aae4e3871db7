//! Ports of the network and of two actors.
ghost use Rattle.std.specs.Prelude.{◌≡◌, ◌≢◌, ◌<◌, ◌++◌, ◌∷◌, [], false, map};
ghost use Rattle.std.specs.Thread.{IsSync};
ghost use Rattle.sc_actor.specs.Mail.{is_crash};
ghost use Rattle.sc_thread_ports.specs.exchange.Ports.{Stays, MayPost, SameExchange, given, joined_ports};

use crate::notes::{Note, notes};
use sc_actor::{Event, Journal, Row};
use sc_base::Sequence;
use sc_thread_ports::{Fetched, Port, Unposted};
use std::alloc::Global;
use std::mem::forget;
use std::process::Abort;
use std::sync::Wait;
use std::thread::{Threads, join};

// Returns the number of the fetched mail, or 100 and the number of rows where there is none.
fn number_of(found: &Fetched<Note>) -> u32 {
    match found {
        Fetched::Mail { number, mail: _ } => *number,
        Fetched::Empty { seen } => seen.saturating_add(100),
    }
}

fn fetched<R: Wait + Abort>(rt: &R, port: &mut Port<Note, u32>, k: u32) -> u32
    ensures { Stays port.old port.new × (port.new.crashed ≡ port.old.crashed) }
{
    assert!(rt; 0 < k);
    let found = port.fetch(rt, k).expect(rt, "memory");
    let number = number_of(&found);
    forget(found);
    number
}

// Returns the number of the mail that is pending for an actor at this place, or 0.
fn pending<R: Wait + Abort>(rt: &R, port: &mut Port<Note, u32>, who: u32, k: u32) -> u32
    ensures { Stays port.old port.new × (port.new.crashed ≡ port.old.crashed) }
{
    assert!(rt; 0 < k);
    port.pending(rt, who, k).unwrap_or(0)
}

// Returns how many mails were sent, and how many copies are pending, as two digits.
fn looked<R: Wait + Abort>(rt: &R, net: &mut Port<Note, u32>) -> u32
    requires { net.old.who ≡ 0 }
    ensures { Stays net.old net.new }
{
    let look = net.look(rt).expect(rt, "memory");
    let pending = u32::try_from(look.pending.len()).unwrap_or(9);
    let sent = look.sent;
    forget(look);
    sent.wrapping_mul(10).wrapping_add(pending)
}

// Returns the receiver of the first pending mail of all, or 0.
fn first_goes<R: Wait>(rt: &R, net: &mut Port<Note, u32>) -> u32
    ensures { Stays net.old net.new }
{
    net.first_receiver(rt).unwrap_or(0)
}

// Returns, of the copies for actor 1, the number and the place of the one that a word picks, as two
// digits; or 0.
fn picked<R: Wait + Abort>(rt: &R, net: &mut Port<Note, u32>, word: u32) -> u32
    requires { net.old.who ≡ 0 }
    ensures { Stays net.old net.new }
{
    let glance = net.glance(rt, &[1], word).expect(rt, "memory");
    match glance.spot {
        Some(spot) => spot.number.wrapping_mul(10).wrapping_add(spot.k),
        None => 0,
    }
}

// Returns 1 where the mail was lost or repeated, 0 where it may not be, and 9 where the row is
// refused.
fn digit_of(done: &Result<bool, Unposted<Note, u32>>) -> u32 {
    match done {
        Ok(true) => 1,
        Ok(false) => 0,
        Err(_) => 9,
    }
}

fn repeats<R: Wait>(rt: &R, net: &mut Port<Note, u32>, number: u32) -> u32
    requires { net.old.who ≡ 0 }
    ensures { Stays net.old net.new }
{
    let done = net.again(rt, number);
    let digit = digit_of(&done);
    forget(done);
    digit
}

fn loses<R: Wait>(rt: &R, net: &mut Port<Note, u32>, number: u32) -> u32
    requires { net.old.who ≡ 0 }
    ensures { Stays net.old net.new }
{
    let done = net.lose(rt, number);
    let digit = digit_of(&done);
    forget(done);
    digit
}

// Delivers the mail at this place, sends a note to each of these receivers, and returns the number
// of the mail, or 0.
fn take<R: Wait + Abort>(
    rt: &R,
    alloc: Global,
    port: &mut Port<Note, u32>,
    k: u32,
    receivers: &[u32],
) -> u32
    requires { (0 < k) × (port.old.who ≢ 0) × (port.old.crashed ≡ false) }
    ensures { Stays port.old port.new × (port.new.crashed ≡ false) }
{
    let Fetched::Mail { number, mail: _ } = port.fetch(rt, k).expect(rt, "memory") else {
        return 0;
    };
    post_one(
        rt,
        port,
        Event::Deliver(number),
        notes(rt, alloc, receivers, 0),
    );
    number
}

fn post_one<R: Wait + Abort>(
    rt: &R,
    port: &mut Port<Note, u32>,
    event: Event<u32>,
    sent: Sequence<Note>,
)
    requires { (port.old.who ≢ 0)
        × (port.old.crashed ≡ false)
        × MayPost port.old.fetched event
        × (is_crash event ≡ false) }
    ensures { Stays port.old port.new × (port.new.crashed ≡ false) }
{
    match port.post(rt, event, sent) {
        Ok(_) => {}
        Err(_) => panic!(rt; "a row was refused"),
    }
}

// Returns whether mail is pending for actor 1, for the number 7 and for actor 2, as three digits
// behind a 1.
fn waits_of<R: Wait + Abort>(rt: &R, net: &mut Port<Note, u32>) -> u32
    ensures { Stays net.old net.new }
{
    let waits = net.waiting(rt, &[1, 7, 2]).expect(rt, "memory");
    let digits = digits_of(waits.as_slice());
    forget(waits);
    digits
}

fn digits_of(flags: &[bool]) -> u32 {
    let mut digits = 1u32;
    for flag in flags {
        let digit = if *flag { 1 } else { 0 };
        digits = digits.wrapping_mul(10).wrapping_add(digit);
    }
    digits
}

// The ports of the network and of two actors that have not crashed.
#[derive(Drop)]
struct Ports {
    net: Port<Note, u32>,
    one: Port<Note, u32>,
    two: Port<Note, u32>,
    ghost numbers: { (net.who ≡ 0) × (one.who ≢ 0) × (two.who ≢ 0) },
    ghost run: { (one.crashed ≡ false) × (two.crashed ≡ false) },
}

// A step of a story at these ports.
#[derive(Clone, Copy)]
enum Deed {
    // The first actor fetches the mail at this place.
    Fetch(u32),
    // The first actor looks for the mail at this place.
    Look(u32),
    // The first actor delivers the mail at this place, and sends a note to this actor.
    Take(u32, u32),
    // The second actor sends this number of notes to the first.
    Send(usize),
    // The network looks for the mail of an actor at a place.
    Pending(u32, u32),
    Lose(u32),
    Repeat(u32),
    Count,
    Waits,
    // The network asks for the receiver of the first mail.
    First,
    // The network picks a copy for actor 1 by a word.
    Pick(u32),
}

fn take_one<R: Wait + Abort>(
    rt: &R,
    alloc: Global,
    port: &mut Port<Note, u32>,
    k: u32,
    to: u32,
) -> u32
    requires { (port.old.who ≢ 0) × (port.old.crashed ≡ false) }
    ensures { Stays port.old port.new × (port.new.crashed ≡ false) }
{
    assert!(rt; 0 < k);
    take(rt, alloc, port, k, &[to])
}

fn send<R: Wait + Abort>(rt: &R, alloc: Global, port: &mut Port<Note, u32>, many: usize) -> u32
    requires { (port.old.who ≢ 0) × (port.old.crashed ≡ false) }
    ensures { Stays port.old port.new × (port.new.crashed ≡ false) }
{
    let to = [1u32, 1, 1];
    let receivers = to.as_slice().get(..many).unwrap_or(&[]);
    post_one(rt, port, Event::Go, notes(rt, alloc, receivers, 0));
    1
}

fn done<R: Wait + Abort>(rt: &R, alloc: Global, ports: &mut Ports, deed: Deed) -> u32 {
    match deed {
        Deed::Fetch(k) => fetched(rt, &mut ports.one, k),
        Deed::Look(k) => pending(rt, &mut ports.one, 1, k),
        Deed::Take(k, to) => take_one(rt, alloc, &mut ports.one, k, to),
        Deed::Send(many) => send(rt, alloc, &mut ports.two, many),
        Deed::Pending(who, k) => pending(rt, &mut ports.net, who, k),
        Deed::Lose(number) => loses(rt, &mut ports.net, number),
        Deed::Repeat(number) => repeats(rt, &mut ports.net, number),
        Deed::Count => looked(rt, &mut ports.net),
        Deed::Waits => waits_of(rt, &mut ports.net),
        Deed::First => first_goes(rt, &mut ports.net),
        Deed::Pick(word) => picked(rt, &mut ports.net, word),
    }
}

// Takes the steps of a story with new ports, and checks the answer of each.
fn come_true<R: Wait + Abort>(rt: &R, alloc: Global, story: &[(Deed, u32)]) {
    let mut net: Port<Note, u32> = Port::start(alloc, 2, 1 << 20).expect(rt, "memory");
    let one = net.split(1).expect(rt, "memory");
    let two = net.split(2).expect(rt, "memory");
    let mut ports = Ports { net, one, two };
    for step in story {
        assert!(rt; done(rt, alloc, &mut ports, step.0) == step.1);
    }
    forget(ports);
}

const FRESH: &[(Deed, u32)] = &[
    (Deed::Fetch(1), 100),
    (Deed::Look(1), 0),
    (Deed::Lose(1), 0),
    (Deed::Repeat(1), 0),
    (Deed::Count, 0),
    (Deed::First, 0),
    (Deed::Pick(7), 0),
];

#[test]
fn fresh_ports(rt: HostRuntime) {
    come_true(&rt, rt.alloc(), FRESH);
}

// Actor 2 sends three notes to actor 1, which delivers the second and sends one to the desk. The
// second note is repeated twice, and one copy of it is lost.
const DOUBLED: &[(Deed, u32)] = &[
    (Deed::Send(3), 1),
    (Deed::Take(2, 0), 2),
    (Deed::Repeat(2), 1),
    (Deed::Repeat(2), 1),
    (Deed::Pending(1, 1), 1),
    (Deed::Pending(1, 2), 2),
    (Deed::Pending(1, 3), 2),
    (Deed::Pending(1, 4), 3),
    (Deed::Pending(0, 5), 0),
    (Deed::Count, 44),
    (Deed::Pick(6), 23),
    (Deed::Lose(2), 1),
    (Deed::Fetch(3), 3),
    (Deed::Repeat(4), 0),
];

#[test]
fn doubled_mail_order(rt: HostRuntime) {
    come_true(&rt, rt.alloc(), DOUBLED);
}

const WAITING: &[(Deed, u32)] = &[
    (Deed::Waits, 1000),
    (Deed::Send(1), 1),
    (Deed::Waits, 1100),
    (Deed::First, 1),
    (Deed::Take(1, 2), 1),
    (Deed::Waits, 1001),
    (Deed::First, 2),
];

#[test]
fn waiting_for_each(rt: HostRuntime) {
    come_true(&rt, rt.alloc(), WAITING);
}

// Makes three rows with a note each to the other actor, and up to three deliveries.
fn works<R: Wait + Abort>(
    rt: &R,
    alloc: Global,
    mut port: Port<Note, u32>,
    to: u32,
) -> Port<Note, u32>
    requires { (port.who ≢ 0) × (port.crashed ≡ false) }
    ensures { SameExchange port result × (result.who ≡ port.who) × (result.crashed ≡ false) }
{
    post_one(rt, &mut port, Event::Tick, notes(rt, alloc, &[to], 0));
    post_one(rt, &mut port, Event::Tick, notes(rt, alloc, &[to], 0));
    post_one(rt, &mut port, Event::Tick, notes(rt, alloc, &[to], 0));
    take_three(rt, alloc, &mut port);
    port
}

fn take_three<R: Wait + Abort>(rt: &R, alloc: Global, port: &mut Port<Note, u32>)
    requires { (port.old.who ≢ 0) × (port.old.crashed ≡ false) }
    ensures { Stays port.old port.new × (port.new.crashed ≡ false) }
{
    take(rt, alloc, port, 1, &[]);
    take(rt, alloc, port, 1, &[]);
    take(rt, alloc, port, 1, &[]);
}

// Lets two ports fetch and post at the same time.
fn by_two<R: Threads + Wait + Abort + Sync>(
    rt: &R,
    alloc: Global,
    one: Port<Note, u32>,
    two: Port<Note, u32>,
) -> (Port<Note, u32>, Port<Note, u32>)
    requires { (one.who ≡ 1) × (one.crashed ≡ false) × (two.who ≡ 2) × (two.crashed ≡ false) }
    ensures first { SameExchange one result.0
        × (result.0.who ≡ 1)
        × (result.0.crashed ≡ false) }
    ensures second { SameExchange two result.1
        × (result.1.who ≡ 2)
        × (result.1.crashed ≡ false) }
{
    join(
        rt,
        || -> Port<Note, u32>
            requires { (one.who ≡ 1) × (one.crashed ≡ false) }
            ensures { SameExchange one result × (result.who ≡ 1) × (result.crashed ≡ false) }
        { works(rt, alloc, one, 2) },
        || -> Port<Note, u32>
            requires { (two.who ≡ 2) × (two.crashed ≡ false) }
            ensures { SameExchange two result × (result.who ≡ 2) × (result.crashed ≡ false) }
        { works(rt, alloc, two, 1) },
    )
}

fn take_in(net: &mut Port<Note, u32>, other: Port<Note, u32>)
    requires { (net.old.who ≡ 0) × SameExchange net.old other }
    ensures { SameExchange net.old net.new
        × (net.new.who ≡ 0)
        × (given net.new ≡ given net.old)
        × (map (λ k. k.0) (joined_ports net.new) ≡ map (λ k. k.0) (joined_ports net.old) ++ other.who ∷ []) }
{
    net.join(other);
}

// Returns the journal of two actors whose threads work at the same time, and which then deliver,
// one after the other, what is left of their mail.
fn two_work<R: Threads + Wait + Abort + Sync>(rt: &R, alloc: Global) -> Journal<Note, u32> {
    let mut net: Port<Note, u32> = Port::start(alloc, 2, 1 << 20).expect(rt, "memory");
    let one = net.split(1).expect(rt, "memory");
    let two = net.split(2).expect(rt, "memory");
    let (mut one, mut two) = by_two(rt, alloc, one, two);
    take_three(rt, alloc, &mut one);
    take_three(rt, alloc, &mut two);
    take_in(&mut net, one);
    take_in(&mut net, two);
    net.close(rt)
}

fn deliveries(rows: &[Row<Note, u32>]) -> u32 {
    let mut delivered = 0u32;
    for row in rows {
        if matches!(row.event, Event::Deliver(_)) {
            delivered = delivered.saturating_add(1);
        }
    }
    delivered
}

#[test]
fn two_threads_fetch_and_post(rt: HostRuntime) {
    let journal = two_work(&rt, rt.alloc());
    let delivered = deliveries(journal.as_slice());
    let rows = journal.len();
    forget(journal);
    assert!(rt; rows == 12 && delivered == 6);
}
