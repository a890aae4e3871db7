//! Lines of one row, which the network makes.
ghost use Rattle.std.specs.Prelude.{◌≡◌};
ghost use Rattle.sc_actor.specs.Walk.{line_row};
ghost use Rattle.sc_thread_workers.specs.Crews.{IsCrew};
ghost use Rattle.sc_thread_drive.specs.Changing.{Changes};
ghost use Rattle.sc_thread_drive.specs.CompanyRows.{AreTogether, NetworkActed, RowEnds};

use crate::actor_lines::place_of;
use crate::company::Company;
use sc_actor::{Actor, Line, Parcel};
use sc_thread_ports::{Fate, Port, PostError};
use sc_thread_workers::gather;
use std::sync::Wait;

// Loses a copy of a mail or repeats the mail, where this may be.
fn change_one<M: Parcel + Drop, O: Drop, R: Wait>(
    rt: &R,
    net: &mut Port<M, O>,
    number: u32,
    fate: Fate,
) -> Result<bool, PostError>
    requires { net.old.who ≡ 0 }
    ensures { Changes fate number net.old net.new result }
{
    match net.change(rt, number, fate) {
        Ok(made) => Ok(made),
        Err(unposted) => Err(unposted.why),
    }
}

// Loses a copy of a mail or repeats the mail, where this may be, and then all gather.
fn change<A: Actor, R: Wait>(
    rt: &R,
    company: &mut Company<A>,
    number: u32,
    fate: Fate,
) -> Result<bool, PostError>
    requires crew { IsCrew company.old.net company.old.shells.items }
    ensures { NetworkActed fate number company.old company.new result }
{
    let made = change_one(rt, &mut company.net, number, fate);
    let _ = gather(rt, &mut company.net, &mut company.shells);
    made
}

/// Loses the k-th pending mail of an actor. Returns whether a row was made.
pub(crate) fn lose<A: Actor, R: Wait>(
    rt: &R,
    company: &mut Company<A>,
    who: u32,
    k: u32,
) -> Result<bool, PostError>
    requires together { AreTogether company.old }
    ensures { RowEnds (λ s rows. line_row s rows (Line.Drop who k))
        company.old company.new result }
{
    if k == 0 {
        return Ok(false);
    }
    let Some(_) = place_of(company.shells.as_slice(), who) else {
        return Ok(false);
    };
    let Some(number) = company.net.pending(rt, who, k) else {
        let _ = gather(rt, &mut company.net, &mut company.shells);
        return Ok(false);
    };
    change(rt, company, number, Fate::Lost)
}

/// Repeats a mail, if its receiver has a shell and may get it. Returns whether a row was made.
pub(crate) fn again<A: Actor, R: Wait>(
    rt: &R,
    company: &mut Company<A>,
    number: u32,
) -> Result<bool, PostError>
    requires together { AreTogether company.old }
    ensures { RowEnds (λ s rows. line_row s rows (Line.Again number))
        company.old company.new result }
{
    let Some(who) = company.net.receiver(rt, number) else {
        let _ = gather(rt, &mut company.net, &mut company.shells);
        return Ok(false);
    };
    let Some(_) = place_of(company.shells.as_slice(), who) else {
        let _ = gather(rt, &mut company.net, &mut company.shells);
        return Ok(false);
    };
    change(rt, company, number, Fate::Repeated)
}
