// A script: read from standard input, and played operation by operation, each a letter and its operands.
ghost use Rattle.std.specs.Prelude.{◌<◌, length, IfSome};
ghost use Rattle.streams.specs.Streams.{Keeps};

use crate::bad_script;
use streams::Run;

// How many bytes a script has at most.
pub const SCRIPT_LIMIT: usize = 65536;

// Plays the script on standard input, and says what failed, if something did. One byte more is read, so
// that a longer script is seen. A closure may ask something of its calls, so it is asked that it may be
// called at any script.
pub fn run<F: FnOnce(Run, &[u8]) -> Run>(rt: &HostRuntime, program: &[u8], play: F)
    requires { F.IsAlwaysCallable play }
{
    let mut bytes = [0u8; SCRIPT_LIMIT + 1];
    let run = match streams::read_all(rt.stdin(), &mut bytes) {
        Some(n) if n > SCRIPT_LIMIT => bad_script(Run::Well(rt.stdout())),
        Some(n) => play(Run::Well(rt.stdout()), &bytes[..n]),
        None => Run::NotRead,
    };
    run.end(rt.stderr(), program);
}

// What a program makes of its script. A trait and no closure: of a closure it would be asked that it may be
// called.
pub trait Script {
    fn play(run: Run, script: &[u8]) -> Run;
}

// Plays the script on standard input as a type of the trait does, of which nothing is asked. A type holds no
// values: a caller whose playing needs some has `run`.
pub fn run_script<S: Script>(rt: &HostRuntime, program: &[u8]) {
    run(rt, program, |run, script| S::play(run, script));
}

// What a script is played on: how long an operation is by its letter and its own operands, if it is one;
// and how the run stands after it, if it can be performed.
pub trait Player<'a> {
    fn claimed_length(operation: &[u8]) -> Option<usize>;

    fn perform(&mut self, operation: &'a [u8]) -> Option<Run>;
}

// Performs a script's operations one after another, until something fails. Of a run that failed before it
// performs none.
pub fn play<'a, P: Player<'a> + Drop>(run: Run, script: &'a [u8], player: P) -> Run
    ensures { Keeps run result }
{
    if !run.is_well() {
        return run;
    }
    perform_all(run, script, player)
}

fn perform_all<'a, P: Player<'a> + Drop>(mut run: Run, script: &'a [u8], mut player: P) -> Run {
    let mut left = script;
    while !left.is_empty() && run.is_well() {
        let Some((operation, behind)) = cut(left, P::claimed_length(left)) else {
            return bad_script(run);
        };
        let Some(next) = player.perform(operation) else {
            return bad_script(run);
        };
        run = next;
        left = behind;
    }
    run
}

// What is left of a script, cut behind the operation that it begins with, if it begins with one. That has
// its letter at least, so that what is left gets shorter.
fn cut(left: &[u8], claimed_length: Option<usize>) -> Option<(&[u8], &[u8])>
    ensures { IfSome result (λ p. length p.1.now < length left.now) }
{
    left.split_at_checked(claimed_length?.max(1))
}
