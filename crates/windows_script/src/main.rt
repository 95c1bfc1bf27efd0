// The scripted comparer: compares two recordings with the room for the list that the script says, and
// prints the answer, a sum of the whole list afterwards, and its rows.
#![tactic(auto)]

mod line;

use script_parts::{Script, bad_script, rest, three_bytes};
use streams::Run;
use windows::{Line, Refusal};

// How many bytes stand before the recordings: the list's room and the first recording's length.
const HEAD: usize = 6;

fn main(rt: HostRuntime) {
    script_parts::run_script::<Comparing>(&rt, b"windows_script");
}

struct Comparing;

impl Script for Comparing {
    // The list has all the room that two recordings can need, of which the script lends a part.
    fn play(run: Run, script: &[u8]) -> Run {
        if script.len() < HEAD {
            return bad_script(run);
        }
        let len = three_bytes(script, 3);
        if len > script.len() - HEAD {
            return bad_script(run);
        }
        let mut list = [0xA5usize; Line::LIST_ROOM];
        let compared = compare_lent(script, len, &mut list);
        line::tell(run, compared, &list)
    }
}

// The first recording has so many bytes, and the second the rest.
fn compare_lent(script: &[u8], len: usize, list: &mut [usize]) -> Result<usize, Refusal> {
    let room = three_bytes(script, 0).min(list.len());
    let both = rest(script, HEAD);
    let first = octets::part(both, 0, len);
    let second = rest(both, len);
    windows::compare(first, second, &mut list[..room])
}
