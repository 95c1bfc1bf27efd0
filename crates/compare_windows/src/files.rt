// The recordings, from the files that the arguments name. What fails is said in the system's words.
ghost use Rattle.streams.specs.Streams.{Within};

use std::fs::File;
use std::io;
use std::io::Stderr;
use streams::{argument, fill, open_read, say, say_error};

// Reads argument k's file until it ends or the buffer is full.
pub(crate) fn read(rt: &HostRuntime, k: usize, recording: &mut [u8]) -> Option<usize>
    ensures { Within result recording.new }
{
    let mut path = [0u8; 4096];
    match argument(rt, k, &mut path) {
        Ok(n) => read_path(rt, &path[..n], recording),
        Err(error) => {
            fail_argument(rt.stderr(), k, error);
            None
        }
    }
}

fn fail_argument(err: Stderr, k: usize, error: io::Error) {
    if k == 1 {
        say_error(err, b"cannot take the argument FIRST", error);
    } else {
        say_error(err, b"cannot take the argument SECOND", error);
    }
}

fn read_path(rt: &HostRuntime, path: &[u8], recording: &mut [u8]) -> Option<usize>
    ensures { Within result recording.new }
{
    match open_read(rt, path) {
        Ok(mut file) => read_file(rt.stderr(), &mut file, path, recording),
        Err(error) => {
            fail(rt.stderr(), b"cannot open ", path, error);
            None
        }
    }
}

fn read_file(err: Stderr, file: &mut File, path: &[u8], recording: &mut [u8]) -> Option<usize>
    ensures { Within result recording.new }
{
    match fill(file, recording) {
        Ok(n) => Some(n),
        Err(error) => {
            fail(err, b"cannot read ", path, error);
            None
        }
    }
}

fn fail(err: Stderr, words: &[u8], path: &[u8], error: io::Error) {
    say(err, words);
    say_error(err, path, error);
}
