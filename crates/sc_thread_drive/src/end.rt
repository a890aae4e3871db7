//! The end of an exchange.
ghost use Rattle.std.specs.Prelude.{◌≡◌, [], map, IfOk, IsOk};
ghost use Rattle.sc_thread_ports.specs.exchange.Ports.{seen, given, joined_ports, HasJoined, SameExchange, IsTrue};
ghost use Rattle.sc_thread_workers.specs.Crews.{AllOf, AllOver, crew_numbers};
ghost use Rattle.sc_thread_work.specs.shell.Shells.{actor_of, port_of};

use crate::company::Company;
use sc_actor::{Actor, Journal};
use sc_base::{OutOfMemory, Sequence};
use sc_thread_ports::Port;
use sc_thread_work::Shell;
use std::alloc::Global;
use std::sync::Wait;

// Joins the port of a shell, and returns its actor.
fn take_apart<A: Actor>(net: &mut Port<A::Mail, A::Order>, shell: Shell<A>) -> A
    requires net { net.old.who ≡ 0 }
    requires one { SameExchange net.old (port_of shell) }
    ensures actor { result ≡ actor_of shell }
    ensures joined { HasJoined net.old net.new (port_of shell) }
{
    let (actor, port) = shell.parts();
    net.join(port);
    actor
}

// Joins the ports of all shells, closes the network's port, and returns the journal and the actors.
fn close_ports<A: Actor, R: Wait>(
    rt: &R,
    alloc: Global,
    net: Port<A::Mail, A::Order>,
    shells: Vec<Shell<A>>,
) -> Result<(Journal<A::Mail, A::Order>, Sequence<A>), OutOfMemory>
    requires net { net.who ≡ 0 }
    requires exchange { AllOf net shells.items }
    requires all { given net ≡ crew_numbers shells.items }
    requires none { joined_ports net ≡ [] }
    requires over { AllOver net shells.items }
    requires rows { IsTrue net }
    ensures journal { IfOk result (λ left. left.0 ≡ seen net) }
    ensures actors { IfOk result (λ left. left.1 ≡ map actor_of shells.items) }
    ensures none { shells.items ≡ [] → IsOk result }
{
    let mut all = net;
    let mut actors = Sequence::new(alloc);
    for shell in shells {
        let actor = take_apart(&mut all, shell);
        actors.push(actor)?;
    }
    Ok((all.close(rt), actors))
}

/// Joins the ports of all shells and closes the network's port. Returns the journal, which is what
/// that port has seen, and the actors in the order of their shells.
///
/// The shells must be those of all ports that were split off, no port may be joined yet, and all
/// shells must have gathered.
pub fn close<A: Actor, R: Wait>(
    rt: &R,
    alloc: Global,
    company: Company<A>,
) -> Result<(Journal<A::Mail, A::Order>, Sequence<A>), OutOfMemory>
    requires net { company.net.who ≡ 0 }
    requires exchange { AllOf company.net company.shells.items }
    requires all { given company.net ≡ crew_numbers company.shells.items }
    requires none { joined_ports company.net ≡ [] }
    requires over { AllOver company.net company.shells.items }
    requires rows { IsTrue company.net }
    ensures journal { IfOk result (λ left. left.0 ≡ seen company.net) }
    ensures actors { IfOk result (λ left. left.1 ≡ map actor_of company.shells.items) }
    ensures none { company.shells.items ≡ [] → IsOk result }
{
    close_ports(rt, alloc, company.net, company.shells)
}
