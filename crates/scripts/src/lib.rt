// The scripted console: makes the calls of a script on one receiver, by value or in place, and prints
// every answer and what became of every lent buffer.
#![tactic(auto)]

mod calls;
mod console;
mod line;
mod operands;
mod script;
mod supplies;

pub use calls::{ByValue, Calls, InPlace};
use console::Console;
use script_parts::Script;
use streams::Run;

// Plays the script on standard input.
pub fn run<C: Calls>(rt: &HostRuntime, program: &[u8]) {
    script_parts::run_script::<Console<C>>(rt, program);
}

impl<'a, C: Calls> Script for Console<'a, C> {
    // Makes the script's calls on one receiver.
    fn play(run: Run, script: &[u8]) -> Run {
        script_parts::play(run, script, Console::<C>::fresh(run))
    }
}
