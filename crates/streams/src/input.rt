// Reading, from standard input or another reader: how many bytes were read to the start of the buffer, 0 at
// the end of the input; or None where a read failed.
ghost use Rattle.std.specs.Prelude.{length, ◌≡◌, IfOk};
ghost use Rattle.std.specs.Io.{ReadsAtMost};
ghost use Rattle.streams.specs.Streams.{Within, got_of, ReadsOnce, ReadsOn, Fills};

use std::io;
use std::io::{Read, Stdin};

// One read of standard input.
pub fn read(mut input: Stdin, buf: &mut [u8]) -> Option<usize>
    ensures { Within result buf.new }
{
    read_from(&mut input, buf)
}

// Reads standard input until the buffer is full or the input ends.
pub fn read_all(mut input: Stdin, buf: &mut [u8]) -> Option<usize>
    ensures { Within result buf.new }
{
    read_all_from(&mut input, buf)
}

// One read of a reader.
pub fn read_from<R: Read>(input: &mut R, buf: &mut [u8]) -> Option<usize>
    ensures within { Within result buf.new }
    ensures bytes { ReadsOnce (R.remaining input.old) (R.remaining input.new) result buf.new }
{
    let answer = input.read(buf);
    counted(answer, buf)
}

// Reads a reader until the buffer is full or the input ends.
pub fn read_all_from<R: Read>(input: &mut R, buf: &mut [u8]) -> Option<usize>
    ensures within { Within result buf.new }
    ensures bytes { ReadsOn (R.remaining input.old) (R.remaining input.new) result buf.new }
{
    let answer = fill(input, buf);
    counted(answer, buf)
}

// The same, with the error of a read that failed.
pub fn fill<R: Read>(input: &mut R, buf: &mut [u8]) -> io::Result<usize>
    ensures within { ReadsAtMost result buf.new }
    ensures bytes { IfOk result (λ n. Fills (R.remaining input.old) (R.remaining input.new) n buf.new) }
{
    let mut at = 0;
    while at < buf.len() {
        let n = input.read(&mut buf[at..])?;
        if n == 0 {
            break;
        }
        at += n;
    }
    Ok(at)
}

// What the answer to a read means.
fn counted(answer: io::Result<usize>, buf: &[u8]) -> Option<usize>
    ensures { result ≡ got_of answer (length buf.now) }
{
    answer.ok().map(|n| n.min(buf.len()))
}
