//! The beginning of a run.
ghost use Rattle.std.specs.Prelude.{◌≡◌, ◌≤◌, ◌^◌, [], IfOk};
ghost use Rattle.sc_thread_ports.specs.exchange.Ports.{joined_ports};
ghost use Rattle.sc_thread_drive.specs.CompanyRows.{HasOpened};
ghost use Rattle.sc_scenario.specs.scenario.Valid.{IsValid};
ghost use Rattle.sc_meaning.specs.sound.Players.{births, as_nodes};

use sc_base::OutOfMemory;
use sc_scenario::Scenario;
use sc_thread_drive::{Company, open};
use sc_world::{MOST_ACTOR, Party, births, valid_scenarios_can_play};
use std::alloc::Global;

/// Returns the company of a scenario, its nodes and then its clients, each as it is created, whose
/// journal has a limit of counted bytes, of at most 2^30.
///
/// The actors' numbers are 1 to 96: nodes have 1 to 32, and clients come from 33 on.
pub fn begin(alloc: Global, scenario: &Scenario, limit: u64) -> Result<Company<Party>, OutOfMemory>
    requires valid { IsValid scenario.now }
    requires limit { limit ≤ 2 ^ 30 }
    ensures opened { IfOk result (HasOpened (births as_nodes scenario.now)) }
    ensures unjoined { IfOk result (λ company. joined_ports company.net ≡ []) }
    ensures limit { IfOk result (λ company. company.net.limit ≡ limit) }
{
    valid_scenarios_can_play();
    let seats = births(alloc, scenario)?;
    open(alloc, seats, MOST_ACTOR, limit)
}
