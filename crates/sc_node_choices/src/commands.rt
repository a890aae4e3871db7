//! Questions about a command.
ghost use Rattle.std.specs.Prelude.{◌≡◌};
ghost use Rattle.sc_node_table.specs.Sameness.{same_command};
ghost use Rattle.sc_node_table.specs.Pump.{is_act};

use sc_base::Same;
use sc_words::Command;

/// Returns whether two commands are equal.
pub fn same_command(a: &Command, b: &Command) -> bool
    ensures { result ≡ same_command a.now b.now }
{
    a.is_same(b)
}

/// Returns whether a command is other than Call and Noop. While one is in flight or ready nothing
/// new is offered.
pub fn is_act(command: &Command) -> bool
    ensures { result ≡ is_act command.now }
{
    match command {
        Command::Noop | Command::Call { .. } => false,
        _ => true,
    }
}
