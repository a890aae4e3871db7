//! One step of an actor, its row, and the mail on the wire after it.
ghost use Rattle.std.specs.Prelude.{◌≡◌, ◌<◌, ◌+◌, ◌++◌, ◌^◌, ◌∷◌, [], length, OnOk, OnErr};
ghost use Rattle.sc_actor.specs.Mail.{mails};
ghost use Rattle.sc_actor.specs.Replay.{acted, input_of};
ghost use Rattle.sc_actor.specs.declared.rows.Event.TheVariants.{Deliver, Go};

use sc_actor::{Actor, Event, Input, Journal, Row, journals_grow};
use sc_base::{Dup, OutOfMemory, Sequence};
use std::alloc::Global;

/// The rows of what actors did, and the wire: copies of all mail that the rows have sent. The mail
/// with the number n stands at place n - 1.
#[derive(Drop)]
pub struct Log<M, O> {
    /// The rows, in the order in which they were made.
    pub rows: Journal<M, O>,
    /// The mail of all rows, by number.
    pub wire: Sequence<M>,
}

impl<M, O> Log<M, O> {
    /// Returns a log without rows and mail.
    pub fn new(alloc: Global) -> Log<M, O>
        ensures { (result.rows ≡ []) × (result.wire ≡ []) }
    {
        Log {
            rows: Journal::new(alloc),
            wire: Sequence::new(alloc),
        }
    }
}

// Appends copies of the mail that was sent to the wire.
fn hand_over<M: Dup + Drop>(
    alloc: Global,
    sent: &[M],
    wire: &mut Sequence<M>,
) -> Result<(), OutOfMemory>
    ensures { OnOk result (wire.new ≡ wire.old ++ sent.now) }
{
    for mail in sent {
        wire.push(mail.dup(alloc)?)?;
    }
    Ok(())
}

/// Has the actor take the input of an event by its table, appends what it sends to the wire, and
/// appends its row. `who` is the actor's number. The only error is out of memory: then no row is
/// added, and the actor and the log may only be dropped.
pub fn act<A: Actor>(
    alloc: Global,
    who: u32,
    actor: &mut A,
    event: Event<A::Order>,
    input: &Input<A::Mail, A::Order>,
    log: &mut Log<A::Mail, A::Order>,
) -> Result<(), OutOfMemory>
    requires carried { log.old.wire ≡ mails log.old.rows }
    ensures actor { OnOk result (actor.new ≡ (A.table actor.old input.now).0) }
    ensures row { OnOk result (log.new.rows ≡ log.old.rows
        ++ record { who = who; event = event; sent = (A.table actor.old input.now).1 } ∷ []) }
    ensures carried { OnOk result (log.new.wire ≡ mails log.new.rows) }
    ensures unchanged { OnErr result (log.new.rows ≡ log.old.rows) }
{
    journals_grow::<A>();
    let sent = actor.step(alloc, input)?;
    hand_over(alloc, sent.as_slice(), &mut log.wire)?;
    log.rows.push(Row { who, event, sent })
}

/// Delivers the mail at a place of the wire, whose number is `place + 1`, to the actor, and appends
/// its row. `who` is the actor's number. The only error is out of memory: then no row is added, and
/// the actor and the log may only be dropped.
pub fn deliver<A: Actor>(
    alloc: Global,
    who: u32,
    actor: &mut A,
    place: usize,
    log: &mut Log<A::Mail, A::Order>,
) -> Result<(), OutOfMemory>
    requires place { place < length log.old.wire }
    requires few { place + 1 < 2 ^ 32 }
    requires carried { log.old.wire ≡ mails log.old.rows }
    ensures actor { OnOk result (actor.new
        ≡ (acted A.table actor.old (input_of (mails log.old.rows) (Deliver (place + 1)))).0) }
    ensures row { OnOk result (log.new.rows ≡ log.old.rows ++ record {
      who = who;
      event = Deliver (place + 1);
      sent = (acted A.table actor.old (input_of (mails log.old.rows) (Deliver (place + 1)))).1;
    } ∷ []) }
    ensures carried { OnOk result (log.new.wire ≡ mails log.new.rows) }
    ensures unchanged { OnErr result (log.new.rows ≡ log.old.rows) }
{
    let mail = log.wire.at(place).dup(alloc)?;
    let event = Event::Deliver(place as u32 + 1);
    act(alloc, who, actor, event, &Input::Got(mail), log)
}

/// Starts the actor, and appends its row. `who` is the actor's number. The only error is out of
/// memory: then no row is added, and the actor and the log may only be dropped.
pub fn start<A: Actor>(
    alloc: Global,
    who: u32,
    actor: &mut A,
    log: &mut Log<A::Mail, A::Order>,
) -> Result<(), OutOfMemory>
    requires carried { log.old.wire ≡ mails log.old.rows }
    ensures actor { OnOk result (actor.new
        ≡ (acted A.table actor.old (input_of (mails log.old.rows) Go)).0) }
    ensures row { OnOk result (log.new.rows ≡ log.old.rows ++ record {
      who = who;
      event = Go;
      sent = (acted A.table actor.old (input_of (mails log.old.rows) Go)).1;
    } ∷ []) }
    ensures carried { OnOk result (log.new.wire ≡ mails log.new.rows) }
    ensures unchanged { OnErr result (log.new.rows ≡ log.old.rows) }
{
    act(alloc, who, actor, Event::Go, &Input::Go, log)
}
