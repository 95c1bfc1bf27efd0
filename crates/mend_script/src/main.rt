// The scripted mender: mends one recording with the rooms that the script says, and prints the answer,
// a sum of each buffer afterwards, and the list.
#![tactic(auto)]

mod line;

use recordings::{Mended, Refusal};
use script_parts::{Script, bad_script, rest, three_bytes};
use streams::Run;

// How many bytes stand before the recording: the rooms of the output and of the list.
const HEAD: usize = 6;

fn main(rt: HostRuntime) {
    script_parts::run_script::<Mending>(&rt, b"mend_script");
}

struct Mending;

impl Script for Mending {
    // The buffers have all the room that a recording can need, of which the script lends a part.
    fn play(run: Run, script: &[u8]) -> Run {
        if script.len() < HEAD {
            return bad_script(run);
        }
        let mut output = [0xA5u8; Mended::LIMIT];
        let mut list = [0xA5usize; Mended::LIST_ROOM];
        let mended = mend_lent(script, &mut output, &mut list);
        line::tell(run, mended, &output, &list)
    }
}

// The recording follows the two rooms.
fn mend_lent(script: &[u8], output: &mut [u8], list: &mut [usize]) -> Result<Mended, Refusal> {
    let o = three_bytes(script, 0).min(output.len());
    let l = three_bytes(script, 3).min(list.len());
    let recording = rest(script, HEAD);
    recordings::mend(recording, &mut output[..o], &mut list[..l])
}
