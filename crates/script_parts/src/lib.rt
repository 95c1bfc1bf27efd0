// What the small script programs share: reading a script and cutting it, its numbers, the line for one
// that is none, and the sums of buffers.
//
// Any bytes and any places are answered. `run` alone has a `requires`: that its closure may be called at any
// script.
#![tactic(auto)]

mod numbers;
mod script;
mod sums;
#[cfg(test)]
mod tests;

ghost use Rattle.streams.specs.Streams.{Keeps};

pub use numbers::{byte, eight_bytes, four_bytes, rest, three_bytes, two_bytes};
pub use script::{Player, SCRIPT_LIMIT, Script, play, run, run_script};
use streams::Run;
pub use sums::{list_sum, sum};

pub fn bad_script(run: Run) -> Run
    ensures { Keeps run result }
{
    run.text(b"bad script\n")
}
