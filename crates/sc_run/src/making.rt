//! The scenario that is made.
ghost use Rattle.std.specs.Prelude.{◌≡◌, ◌≤◌, ◌+◌, ◌∷◌, ◌++◌, [], IfOk};
ghost use Rattle.sc_base.specs.Limits.{most_requests};
ghost use Rattle.sc_scenario.specs.scenario.Groups.{bases_of};
ghost use Rattle.sc_scenario.specs.scenario.Made.{made_clients, made_groups, made_goes, made_scenario};
ghost use Rattle.sc_scenario.specs.declared.scenario.scenarios.SchedLine.TheVariants.{Settle};

use crate::drawing::made_ops;
use sc_base::{Members, OutOfMemory, Sequence};
use sc_scenario::{
    Asks, ClientList, GroupLine, GroupList, Scenario, SchedLine, Schedule, bases_of,
};
use sc_texts::Chance;
use std::alloc::Global;

const CLIENTS: u16 = 16;

const DELIVERIES: u32 = 1_000_000;

fn clients(alloc: Global, n: u16, seed: u64) -> Result<ClientList, OutOfMemory>
    requires { n ≤ 1000 }
    ensures { IfOk result (λ clients. clients ≡ made_clients seed n 16) }
{
    let mut chance = Chance::start(seed);
    let mut clients = Sequence::new(alloc);
    for k in 0..CLIENTS {
        let ops = made_ops(alloc, &mut chance, k, n)?;
        clients.push(Asks { client: k + 1, ops })?;
    }
    Ok(clients)
}

// Returns the set of three neighbouring nodes.
fn three(first: u16) -> Members
    requires { first ≤ 30 }
    ensures { result ≡ first ∷ (first + 1) ∷ (first + 2) ∷ [] }
{
    let mut members = Members::one(first);
    let _second = members.add(first + 1);
    let _third = members.add(first + 2);
    members
}

fn groups(alloc: Global) -> Result<GroupList, OutOfMemory>
    ensures { IfOk result (λ groups. groups ≡ bases_of made_groups) }
{
    let lines = [
        GroupLine {
            lo: 0,
            members: three(1),
        },
        GroupLine {
            lo: 1_342_177_280,
            members: three(4),
        },
        GroupLine {
            lo: 1_744_830_464,
            members: three(7),
        },
    ];
    bases_of(alloc, &lines)
}

fn lines(alloc: Global) -> Result<Schedule, OutOfMemory>
    ensures { IfOk result (λ lines. lines ≡ made_goes 16 ++ Settle 1000000 ∷ []) }
{
    let mut lines = Sequence::new(alloc);
    for k in 0..CLIENTS {
        lines.push(SchedLine::Go { client: k + 1 })?;
    }
    lines.push(SchedLine::Settle { most: DELIVERIES })?;
    Ok(lines)
}

/// Returns the scenario of version 1 with three groups of three nodes and sixteen clients, each
/// with `n` requests, 1 to 1,000, which are drawn from the random words that `seed` seeds. All
/// clients start, and then mail is delivered, at most 1,000,000 times, until none is pending.
pub fn made_scenario(alloc: Global, n: u32, seed: u64) -> Result<Scenario, OutOfMemory>
    requires some { 1 ≤ n }
    requires few { n ≤ most_requests }
    ensures { IfOk result (λ scenario. scenario ≡ made_scenario n seed) }
{
    let groups = groups(alloc)?;
    let clients = clients(alloc, n as u16, seed)?;
    let lines = lines(alloc)?;
    Ok(Scenario {
        nodes: 9,
        groups,
        policy: false,
        clients,
        lines,
        brief: true,
        version: 1,
    })
}
