// The scripted office: makes the calls of a script on one sender, and prints every answer, what became
// of every lent buffer, and the sender's state.
#![tactic(auto)]

mod line;
mod office;
mod script;

use office::Office;
use script_parts::Script;
use streams::Run;

fn main(rt: HostRuntime) {
    script_parts::run_script::<Office>(&rt, b"drive_sender");
}

impl<'a> Script for Office<'a> {
    // Makes the script's calls on one sender.
    fn play(run: Run, script: &[u8]) -> Run {
        script_parts::play(run, script, Office::fresh(run))
    }
}
