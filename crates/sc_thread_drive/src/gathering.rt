//! Gathering of all shells: they meet the network's port and vouch for what it has seen. Here only
//! one of them has acted, or none.
ghost use Rattle.std.specs.Prelude.{◌<◌, length};
ghost use Rattle.sc_thread_ports.specs.exchange.Ports.{IsTrue, IsAddressed};
ghost use Rattle.sc_thread_workers.specs.Crews.{AllMet, AllOf, AreStill};
ghost use Rattle.sc_thread_workers.specs.RoundEnds.{IsFirst, IsGathered};
ghost use Rattle.sc_thread_drive.specs.Gatherings.{OthersMet};

use sc_actor::Actor;
use sc_thread_ports::Port;
use sc_thread_work::Shell;
use sc_thread_workers::{meet_one, vouch};
use std::sync::Wait;

/// Lets all shells gather, where each shell but that at a place has seen only what the port has
/// seen. So only that one meets the port. Returns the receiver of the first mail pending for the
/// port's actor, or for any actor where the port is the network's.
pub(crate) fn gather_after<A: Actor, R: Wait>(
    rt: &R,
    net: &mut Port<A::Mail, A::Order>,
    shells: &mut Vec<Shell<A>>,
    place: usize,
) -> Option<u32>
    requires exchange { AllOf net.old shells.old.items }
    requires inside { place < length shells.old.items }
    requires others { OthersMet place net.old shells.old.items }
    ensures still { AreStill net.old net.new shells.old.items shells.new.items }
    ensures gathered { IsGathered net.new shells.new.items }
    ensures found { IsFirst net.new result }
{
    meet_one(rt, net, &mut shells[place]);
    let found = net.first_receiver(rt);
    vouch(net, shells);
    found
}

/// Lets all shells gather, where each has seen only what the port has seen and the port's rows are
/// known. So no shell meets the port, and each vouches for what the port has seen.
pub(crate) fn gather_again<A: Actor>(net: &mut Port<A::Mail, A::Order>, shells: &mut Vec<Shell<A>>)
    requires exchange { AllOf net.old shells.old.items }
    requires met { AllMet net.old shells.old.items }
    requires rows { IsTrue net.old }
    requires addressed { IsAddressed net.old }
    ensures still { AreStill net.old net.new shells.old.items shells.new.items }
    ensures gathered { IsGathered net.new shells.new.items }
{
    vouch(net, shells);
}
