//! An event or a turn of one actor, where all gather before and after it.
ghost use Rattle.std.specs.Prelude.{◌<◌, length};
ghost use Rattle.sc_thread_ports.specs.exchange.Ports.{SameExchange};
ghost use Rattle.sc_thread_work.specs.shell.Answers.{MayHappen};
ghost use Rattle.sc_thread_work.specs.shell.Shells.{port_of};
ghost use Rattle.sc_thread_workers.specs.RoundEnds.{IsFirst};
ghost use Rattle.sc_thread_drive.specs.Acts.{MetAndHappened, MetAndTook};
ghost use Rattle.sc_thread_drive.specs.CompanyRows.{ActedByTurn, ActedOnEvent, AreTogether};

use crate::company::Company;
use crate::gathering::gather_after;
use sc_actor::{Actor, Event, Gate};
use sc_thread_ports::Port;
use sc_thread_work::{Shell, Turn};
use std::alloc::Global;
use std::sync::Wait;

fn meet_then_event<A: Actor, R: Wait>(
    rt: &R,
    alloc: Global,
    net: &mut Port<A::Mail, A::Order>,
    shell: &mut Shell<A>,
    event: Event<A::Order>,
) -> Turn
    requires exchange { SameExchange (port_of shell.old) net.old }
    requires event { MayHappen event }
    ensures { MetAndHappened event result shell.old shell.new net.old net.new }
{
    shell.meet(rt, net).unwrap();
    shell.event(rt, alloc, event)
}

fn meet_then_turn<A: Actor, G: Gate, R: Wait>(
    rt: &R,
    alloc: Global,
    net: &mut Port<A::Mail, A::Order>,
    shell: &mut Shell<A>,
    k: u32,
    gate: &G,
) -> Turn
    requires exchange { SameExchange (port_of shell.old) net.old }
    requires first { 0 < k }
    ensures { MetAndTook k result shell.old shell.new net.old net.new }
{
    shell.meet(rt, net).unwrap();
    shell.turn(rt, alloc, k, gate)
}

/// Lets an event happen to the actor at a place, and then all gather.
pub(crate) fn act_on_event<A: Actor, R: Wait>(
    rt: &R,
    alloc: Global,
    company: &mut Company<A>,
    place: usize,
    event: Event<A::Order>,
) -> Turn
    requires together { AreTogether company.old }
    requires inside { place < length company.old.shells.items }
    requires event { MayHappen event }
    ensures { ActedOnEvent place event result company.old company.new }
{
    let turn = meet_then_event(
        rt,
        alloc,
        &mut company.net,
        &mut company.shells[place],
        event,
    );
    let _ = gather_after(rt, &mut company.net, &mut company.shells, place);
    turn
}

/// Lets the actor at a place take a turn for its k-th pending mail, and then all gather. Returns
/// the answer, and the receiver of the first pending mail of all then.
pub(crate) fn act_by_turn<A: Actor, G: Gate, R: Wait>(
    rt: &R,
    alloc: Global,
    company: &mut Company<A>,
    place: usize,
    k: u32,
    gate: &G,
) -> (Turn, Option<u32>)
    requires together { AreTogether company.old }
    requires inside { place < length company.old.shells.items }
    requires first { 0 < k }
    ensures found { IsFirst company.new.net result.1 }
    ensures served { ActedByTurn place k result.0 company.old company.new }
{
    let turn = meet_then_turn(
        rt,
        alloc,
        &mut company.net,
        &mut company.shells[place],
        k,
        gate,
    );
    let found = gather_after(rt, &mut company.net, &mut company.shells, place);
    (turn, found)
}
