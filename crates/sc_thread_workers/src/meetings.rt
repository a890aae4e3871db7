//! Meetings of the shells with the network's port.
ghost use Rattle.std.specs.Prelude.{◌≡◌, [], IfOk, IsOk};
ghost use Rattle.sc_thread_ports.specs.exchange.Ports.{SameExchange};
ghost use Rattle.sc_thread_work.specs.shell.Shells.{port_of};
ghost use Rattle.sc_thread_workers.specs.RoundEnds.{IsGathered, IsFirst};
ghost use Rattle.sc_thread_workers.specs.Crews.{AllOf, AllMet, AreStill, HaveMet, HaveVouched, HasMet, Met, VouchedFor, crew_numbers};

use sc_actor::Actor;
use sc_base::OutOfMemory;
use sc_thread_ports::Port;
use sc_thread_work::Shell;
use std::alloc::Global;
use std::sync::Wait;

/// Lets the shell and the port exchange what they have seen.
pub fn meet_one<A: Actor, R: Wait>(rt: &R, net: &mut Port<A::Mail, A::Order>, shell: &mut Shell<A>)
    requires exchange { SameExchange (port_of shell.old) net.old }
    ensures { Met shell.old shell.new net.old net.new }
{
    shell.meet(rt, net).unwrap();
}

/// Lets each shell and the port exchange what they have seen.
pub(crate) fn meet_all<A: Actor, R: Wait>(
    rt: &R,
    net: &mut Port<A::Mail, A::Order>,
    shells: &mut [Shell<A>],
)
    requires exchange { AllOf net.old shells.old }
    ensures still { AreStill net.old net.new shells.old shells.new }
    ensures met { HaveMet net.old net.new shells.new }
{
    for shell in shells.iter_mut() {
        meet_one(rt, net, shell);
    }
}

/// Lets each shell of a vector and the port exchange what they have seen.
pub(crate) fn meet<A: Actor, R: Wait>(
    rt: &R,
    net: &mut Port<A::Mail, A::Order>,
    shells: &mut Vec<Shell<A>>,
)
    requires exchange { AllOf net.old shells.old.items }
    ensures still { AreStill net.old net.new shells.old.items shells.new.items }
    ensures met { HaveMet net.old net.new shells.new.items }
{
    meet_all(rt, net, shells.as_mut_slice());
}

fn vouch_one<A: Actor>(net: &mut Port<A::Mail, A::Order>, shell: &mut Shell<A>)
    requires exchange { SameExchange (port_of shell.old) net.old }
    requires met { HasMet net.old shell.old }
    ensures { VouchedFor shell.old shell.new net.old net.new }
{
    shell.vouch(net);
}

/// Lets each shell vouch for what the port has seen.
pub(crate) fn vouch_all<A: Actor>(net: &mut Port<A::Mail, A::Order>, shells: &mut [Shell<A>])
    requires exchange { AllOf net.old shells.old }
    requires met { AllMet net.old shells.old }
    ensures still { AreStill net.old net.new shells.old shells.new }
    ensures vouched { HaveVouched net.old net.new shells.new }
{
    for shell in shells.iter_mut() {
        vouch_one(net, shell);
    }
}

/// Lets each shell of a vector vouch for what the port has seen.
pub fn vouch<A: Actor>(net: &mut Port<A::Mail, A::Order>, shells: &mut Vec<Shell<A>>)
    requires exchange { AllOf net.old shells.old.items }
    requires met { AllMet net.old shells.old.items }
    ensures still { AreStill net.old net.new shells.old.items shells.new.items }
    ensures vouched { HaveVouched net.old net.new shells.new.items }
{
    vouch_all(net, shells.as_mut_slice());
}

/// Lets each shell meet the port, and vouch for what the port has seen then. Returns the receiver
/// of the first mail that is pending for the port's actor, or for any actor where the port is the
/// network's.
///
/// Afterwards the port has seen all that the shells have, and the rows of each actor there are
/// those that its shell has made. No memory is taken.
pub fn gather<A: Actor, R: Wait>(
    rt: &R,
    net: &mut Port<A::Mail, A::Order>,
    shells: &mut Vec<Shell<A>>,
) -> Option<u32>
    requires exchange { AllOf net.old shells.old.items }
    ensures still { AreStill net.old net.new shells.old.items shells.new.items }
    ensures gathered { IsGathered net.new shells.new.items }
    ensures found { IsFirst net.new result }
{
    meet(rt, net, shells);
    let found = net.first_receiver(rt);
    vouch(net, shells);
    found
}

/// Returns the numbers of the shells' actors, in the order of the shells.
pub(crate) fn numbers_of<A: Actor>(
    alloc: Global,
    shells: &[Shell<A>],
) -> Result<Vec<u32>, OutOfMemory>
    ensures numbers { IfOk result (λ whos. whos.items ≡ crew_numbers shells.now) }
    ensures none { shells.now ≡ [] → IsOk result }
{
    let mut whos = Vec::new(alloc);
    for shell in shells {
        whos.push(shell.who())?;
    }
    Ok(whos)
}
