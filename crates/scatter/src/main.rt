//! `scatter`: runs a scenario of a store of self-organising Paxos groups, and prints its report.
#![tactic(auto)]

use sc_actor::Gate;
use sc_base::OutOfMemory;
pub use sc_run::{Done, Text, run};
use sc_texts::{StdSink, StdSource};
use std::process::ExitCode;
use std::{env, io};

/// The gate that holds nobody.
struct Open;

impl Gate for Open {
    fn pass(&self, _who: u32) {}
}

// Returns the arguments behind the program's name. An argument that is not Unicode is none that the
// program knows, so then no argument is returned.
fn words_of(rt: &HostRuntime) -> Result<Vec<String>, OutOfMemory> {
    let mut words = Vec::new(rt.alloc());
    match env::args(rt) {
        Ok(given) => {
            for word in given.skip(1) {
                words.push(word)?;
            }
        }
        Err(error) => {
            if error.kind() == io::ErrorKind::OutOfMemory {
                return Err(OutOfMemory);
            }
        }
    }
    Ok(words)
}

fn main(rt: HostRuntime) -> ExitCode {
    let Ok(words) = words_of(&rt) else {
        return ExitCode::from(8);
    };
    let mut input = StdSource::new(rt.stdin());
    let mut output = StdSink::new(rt.stdout());
    let done = run(&rt, rt.alloc(), &words, &mut input, &mut output, &Open);
    ExitCode::from(done.status)
}
