//! The shells, each with an actor and its port.
ghost use Rattle.std.specs.Prelude.{◌≡◌, ◌<◌, ◌++◌, [], ◌||◌, List, not, true, false, None, Some, IfOk, IsOk};
ghost use Rattle.sc_thread_ports.specs.turn.Turn.{StartsWith as Begins};
ghost use Rattle.sc_actor.specs.declared.rows.Row.{Row};
ghost use Rattle.sc_actor.specs.Mail.{mails};
ghost use Rattle.sc_actor.specs.Replay.{input_of, acted};
ghost use Rattle.sc_thread_ledger.specs.Pending.{kth_pending};
ghost use Rattle.sc_thread_work.specs.shell.Answers.{turn_of, MayHappen};
ghost use Rattle.sc_thread_ports.specs.exchange.Ports.{seen, made, SameExchange, Stays, HasLooked, HasHeard, IsAsBefore, MayPost};

use crate::shell::turns::Turn;
use sc_actor::{Actor, Event, Gate, Input};
use sc_base::{Dup, OutOfMemory, Sequence};
use sc_thread_ports::{Fetched, Port, PostError};
use std::alloc::Global;
use std::sync::Wait;

/// An actor with its port. It lets the actor step and posts the row of the step. A shell that is
/// spent posts no row any more.
///
/// Its meaning is its actor, its port, whether it is spent, and its last answer.
#[derive(Drop)]
pub struct Shell<A: Actor> {
    actor: A,
    port: Port<A::Mail, A::Order>,
    spent: bool,
    last: Option<Turn>,
    ghost numbered: { 0 < port.who },
    ghost runs: { (spent || not port.crashed) ≡ true },
}

impl<A: Actor> Shell<A> {
    ghost use Rattle.sc_thread_work.specs.shell.Shells.{actor_of, port_of, is_spent, last_of, Replays, KeepsReplay, Finds, HasRested, HasVouched, Acts, Takes, Happens, state};

    /// Returns a shell of the actor with its port, which must have made no row. The actor is taken
    /// as it is at its birth.
    pub fn new(actor: A, port: Port<A::Mail, A::Order>) -> Shell<A>
        requires own { 0 < port.who }
        requires fresh { (made port ≡ []) × (port.crashed ≡ false) }
        ensures parts { (actor_of result ≡ actor) × (port_of result ≡ port) }
        ensures fresh { (is_spent result ≡ false) × (last_of result ≡ None) }
        ensures born { Replays result actor }
    {
        Shell {
            actor,
            port,
            spent: false,
            last: None,
        }
    }

    /// Returns the number of the actor.
    pub fn who(&self) -> u32
        ensures { result ≡ (port_of self.now).who }
    {
        self.port.who
    }

    /// Returns whether the shell posts no row any more: it has posted a Crash, or has answered
    /// `Full` or `OutOfMemory`.
    pub fn is_spent(&self) -> bool
        ensures { result ≡ is_spent self.now }
    {
        self.spent
    }

    /// Returns whether the shell has posted a Crash.
    pub fn has_crashed(&self) -> bool
        ensures { result ≡ (port_of self.now).crashed }
    {
        self.port.crashed
    }

    /// Returns the answer of the last turn or event, or `None` where there was none.
    pub fn last(&self) -> Option<Turn>
        ensures { result ≡ last_of self.now }
    {
        self.last
    }

    // Lets the actor step with an input, and posts the row of the step.
    fn act<R: Wait>(
        &mut self,
        rt: &R,
        alloc: Global,
        event: Event<A::Order>,
        input: Option<Input<A::Mail, A::Order>>,
    ) -> Turn
        requires runs { self.old.spent ≡ false }
        requires event { MayPost self.old.port.fetched event }
        requires input { (more : List (Row A.Mail A.Order)) →
            input_of (mails (seen self.old.port ++ more)) event ≡ input }
        ensures acts { Acts (state self.old) (state self.new) event input result }
        ensures stays { Stays (port_of self.old) (port_of self.new) }
        ensures replay { KeepsReplay self.old self.new }
    {
        self.spent = true;
        let Ok(sent) = sent_at(alloc, &mut self.actor, &input) else {
            return Turn::OutOfMemory;
        };
        match self.port.post(rt, event, sent) {
            Ok(at) => {
                self.spent = self.port.crashed;
                Turn::Did { at }
            }
            Err(unposted) => refused(unposted.why),
        }
    }

    fn take_turn<G: Gate, R: Wait>(&mut self, rt: &R, alloc: Global, k: u32, gate: &G) -> Turn
        requires { 0 < k }
        ensures takes { Takes (state self.old) (state self.new) k result }
        ensures memory { result ≡ Turn.OutOfMemory → Finds (port_of self.old) (port_of self.new) k }
        ensures stays { Stays (port_of self.old) (port_of self.new) }
        ensures replay { KeepsReplay self.old self.new }
    {
        if self.spent {
            return Turn::Spent;
        }
        match self.port.fetch(rt, k) {
            Ok(Fetched::Empty { seen }) => Turn::Empty { seen },
            Ok(Fetched::Mail { number, mail }) => {
                gate.pass(self.port.who);
                self.act(rt, alloc, Event::Deliver(number), Some(Input::Got(mail)))
            }
            Err(OutOfMemory) => {
                self.spent = true;
                Turn::OutOfMemory
            }
        }
    }

    /// Fetches the k-th pending mail, counted from 1, passes the gate, lets the actor step, and
    /// posts the row. The answer is `Empty` where fewer mails are pending; then the actor makes no
    /// step, the gate is not passed, and no memory is taken.
    pub fn turn<G: Gate, R: Wait>(&mut self, rt: &R, alloc: Global, k: u32, gate: &G) -> Turn
        requires { 0 < k }
        ensures takes { Takes (state self.old) (state self.new) k result }
        ensures memory { result ≡ Turn.OutOfMemory → Finds (port_of self.old) (port_of self.new) k }
        ensures stays { Stays (port_of self.old) (port_of self.new) }
        ensures replay { KeepsReplay self.old self.new }
        ensures last { last_of self.new ≡ Some result }
    {
        let answer = self.take_turn(rt, alloc, k, gate);
        self.last = Some(answer);
        answer
    }

    fn take_event<R: Wait>(&mut self, rt: &R, alloc: Global, event: Event<A::Order>) -> Turn
        requires { MayHappen event }
        ensures happens { Happens (state self.old) (state self.new) event result }
        ensures stays { Stays (port_of self.old) (port_of self.new) }
        ensures replay { KeepsReplay self.old self.new }
    {
        if self.spent {
            return Turn::Spent;
        }
        let Ok(input) = input_at(alloc, &event) else {
            self.spent = true;
            return Turn::OutOfMemory;
        };
        self.act(rt, alloc, event, input)
    }

    /// Lets the actor step at an event that is no delivery, and posts the row. No mail is fetched,
    /// and no gate is passed.
    pub fn event<R: Wait>(&mut self, rt: &R, alloc: Global, event: Event<A::Order>) -> Turn
        requires { MayHappen event }
        ensures happens { Happens (state self.old) (state self.new) event result }
        ensures stays { Stays (port_of self.old) (port_of self.new) }
        ensures replay { KeepsReplay self.old self.new }
        ensures last { last_of self.new ≡ Some result }
    {
        let answer = self.take_event(rt, alloc, event);
        self.last = Some(answer);
        answer
    }

    /// Lets the shell's port and `net` exchange what they have seen. Afterwards what each has seen
    /// begins with what both had seen before. It takes no memory and never returns `OutOfMemory`.
    pub fn meet<R: Wait>(
        &mut self,
        rt: &R,
        net: &mut Port<A::Mail, A::Order>,
    ) -> Result<(), OutOfMemory>
        requires { SameExchange (port_of self.old) net.old }
        ensures rested { HasRested self.old self.new }
        ensures mine { HasHeard (port_of self.old) (port_of self.new) (seen net.old) }
        ensures theirs { HasHeard net.old net.new (seen (port_of self.old)) }
        ensures last { Begins (seen net.new) (seen (port_of self.new)) }
        ensures none { IsOk result }
    {
        self.port.meet(rt, net)
    }

    /// Shows that in what `net` has seen, which has to begin with what this shell's port has seen,
    /// the rows of this actor are exactly those that this shell's port has made, and that the actor
    /// is their replay if it is that of its rows. Neither port sees more rows afterwards.
    pub fn vouch(&mut self, net: &mut Port<A::Mail, A::Order>)
        requires one { SameExchange (port_of self.old) net.old }
        requires later { Begins (seen net.old) (seen (port_of self.old)) }
        ensures rested { HasRested self.old self.new }
        ensures mine { IsAsBefore (port_of self.old) (port_of self.new) }
        ensures theirs { IsAsBefore net.old net.new }
        ensures vouched { HasVouched self.old self.new (seen net.new) }
    {
        self.port.vouch(net);
    }

    /// Returns the number of the first pending mail of this actor; `None` exactly where at this
    /// turn there is none.
    pub fn waiting<R: Wait>(&mut self, rt: &R) -> Option<u32>
        ensures rested { HasRested self.old self.new }
        ensures looked { HasLooked (port_of self.old) (port_of self.new)
            (port_of self.old).fetched }
        ensures first { result
            ≡ kth_pending A.Mail.receiver (port_of self.old).actors (seen (port_of self.new))
            (port_of self.old).who 1 }
    {
        let who = self.port.who;
        self.port.pending(rt, who, 1)
    }

    /// Returns the actor and its port. It takes no memory.
    pub fn parts(self) -> (A, Port<A::Mail, A::Order>)
        ensures { (result.0 ≡ actor_of self) × (result.1 ≡ port_of self) }
    {
        let Shell {
            actor,
            port,
            spent: _,
            last: _,
        } = self;
        (actor, port)
    }
}

// Returns what the actor sends at an input. Without an input it sends nothing and stays as it is.
fn sent_at<A: Actor>(
    alloc: Global,
    actor: &mut A,
    input: &Option<Input<A::Mail, A::Order>>,
) -> Result<Sequence<A::Mail>, OutOfMemory>
    ensures sent { IfOk result (λ sent. acted A.table actor.old input.now ≡ (actor.new, sent)) }
    ensures none { input.now ≡ None → IsOk result }
{
    match input {
        None => Ok(Sequence::new(alloc)),
        Some(input) => actor.step(alloc, input),
    }
}

// Returns the input of an event that is no delivery; a crash has none.
fn input_at<M, O: Dup>(alloc: Global, event: &Event<O>) -> Result<Option<Input<M, O>>, OutOfMemory>
    requires { MayHappen event.now }
    ensures input { IfOk result (λ input. input ≡ input_of [] event.now) }
    ensures none { ((order : O) → event.now ≡ Event.Told order → ⊥) → IsOk result }
{
    match event {
        Event::Tick => Ok(Some(Input::Tick)),
        Event::Go => Ok(Some(Input::Go)),
        Event::Told(order) => Ok(Some(Input::Told(order.dup(alloc)?))),
        Event::Crash => Ok(None),
        _ => unreachable!(),
    }
}

fn refused(why: PostError) -> Turn
    ensures { result ≡ turn_of why }
{
    match why {
        PostError::JournalFull { bytes } => Turn::Full { bytes },
        PostError::OutOfMemory => Turn::OutOfMemory,
    }
}
