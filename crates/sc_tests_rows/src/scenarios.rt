//! Scenarios of texts.
ghost use Rattle.sc_scenario.specs.scenario.Valid.{IsValid};

use sc_scenario::{Scenario, read_scenario};
use std::alloc::Global;
use std::process::Abort;

/// Returns the scenario that a text is.
pub fn scenario_of(rt: &impl Abort, alloc: Global, input: &[u8]) -> Scenario
    ensures { IsValid result }
{
    read_scenario(alloc, input).expect(rt, "a scenario")
}
