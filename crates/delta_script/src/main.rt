// The scripted patcher: makes the calls of a script on a signature, an old file and a delta that it
// builds up, and prints every answer and what became of the output.
#![tactic(auto)]

mod desk;
mod input;
mod line;
mod listing;
mod script;

use desk::Desk;
use script_parts::Script;
use streams::Run;

fn main(rt: HostRuntime) {
    script_parts::run_script::<Desk>(&rt, b"delta_script");
}

impl Script for Desk {
    // Performs the script's operations on one desk.
    fn play(run: Run, script: &[u8]) -> Run {
        script_parts::play(run, script, Desk::fresh(run))
    }
}
