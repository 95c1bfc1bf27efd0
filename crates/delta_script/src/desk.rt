// What is on the desk between the operations of a script, and each operation.
ghost use Rattle.std.specs.Prelude.{◌≤◌, length};

use crate::input::Input;
use crate::script::claimed_length;
use crate::{line, listing};
use delta::Measured;
use script_parts::{Player, byte, four_bytes, two_bytes};
use streams::Run;

// How many bytes each buffer has: more than a call takes.
pub(crate) const ROOM: usize = Measured::LIMIT + 64;

// How the run stands, the inputs, the output, how many of its bytes are lent, and how many the last apply
// made.
#[derive(Drop)]
pub struct Desk {
    pub run: Run,
    pub signature: Input,
    pub old: Input,
    pub delta: Input,
    pub out: [u8; ROOM],
    pub lent: usize,
    pub made: usize,
}

impl<'a> Player<'a> for Desk {
    fn claimed_length(operation: &[u8]) -> Option<usize> {
        claimed_length(operation)
    }

    // None where an append does not fit, which ends the script.
    fn perform(&mut self, operation: &'a [u8]) -> Option<Run> {
        match byte(operation, 0) {
            b's' | b'S' => self.signature.append(operation)?,
            b'o' | b'O' => self.old.append(operation)?,
            b'd' | b'D' => self.delta.append(operation)?,
            b'n' => self.clear(),
            b'r' => self.lent = four_bytes(operation, 1),
            b'a' => self.apply(),
            _ => self.run = self.told(operation),
        }
        Some(self.run)
    }
}

impl Desk {
    // Empty inputs, the output lent whole.
    pub(crate) fn fresh(run: Run) -> Desk {
        Desk {
            run,
            signature: Input::empty(),
            old: Input::empty(),
            delta: Input::empty(),
            out: [0xA5u8; ROOM],
            lent: ROOM,
            made: 0,
        }
    }

    fn clear(&mut self) {
        self.signature.len = 0;
        self.old.len = 0;
        self.delta.len = 0;
        self.out.fill(0xA5);
        self.lent = ROOM;
        self.made = 0;
    }

    // Lends the first bytes of the output.
    fn apply(&mut self) {
        let out = &mut self.out[..];
        let n = self.lent.min(out.len());
        let applied = delta::apply(
            self.signature.bytes(),
            self.old.bytes(),
            self.delta.bytes(),
            &mut out[..n],
        );
        self.made = match applied {
            Ok(measured) => measured.length,
            Err(_) => 0,
        };
        self.run = line::applied(self.run, applied, &self.out);
    }

    // Operations that change nothing.
    fn told(&self, operation: &[u8]) -> Run {
        let run = self.run;
        let s = self.signature.bytes();
        let o = self.old.bytes();
        let d = self.delta.bytes();
        match byte(operation, 0) {
            b'h' => line::header(run, delta::read_signature(s)),
            b'b' => line::block(run, delta::entry_at(s, two_bytes(operation, 1))),
            b'i' => listing::operations(run, d),
            b'm' => line::measured(run.text(b"m "), delta::measure(s, o, d)).text(b"\n"),
            b'x' => line::made(run, octets::part(&self.out, 0, self.made)),
            b'w' => {
                let window = octets::part(o, four_bytes(operation, 1), four_bytes(operation, 5));
                line::window(run, delta::weak_sum(window))
            }
            b'l' => line::rolled(run, rolled(o, operation)),
            _ => run,
        }
    }
}

// The sum of the n bytes of the old file from a place on, rolled on; none where they pass its end.
fn rolled(old: &[u8], operation: &[u8]) -> Option<u32> {
    let n = four_bytes(operation, 5);
    let bytes = octets::part(old, four_bytes(operation, 1), n + four_bytes(operation, 9));
    if n == 0 || bytes.len() < n {
        return None;
    }
    Some(roll_on(bytes, n))
}

// The sum of the first n bytes, rolled on to the last n.
fn roll_on(bytes: &[u8], n: usize) -> u32
    requires { n ≤ length bytes.now }
{
    let mut sum = delta::weak_sum(&bytes[..n]);
    for (first, next) in bytes.iter().zip(&bytes[n..]) {
        sum = delta::roll(sum, n, *first, *next);
    }
    sum
}
