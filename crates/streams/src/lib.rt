// Standard input and output, and reading of files, for the programs, so that no failure is lost.
//
// No contract can say what the system reads or writes. That of `counted` says that a failed read is told
// from the end of the input; those of the reads, that no more bytes are counted than the buffer has, and
// that the bytes of a reader that knows them stand in it in their order; and those of a run, that it keeps
// the first thing that failed in it.
#![tactic(auto)]

mod arguments;
mod files;
mod hex;
mod input;
mod numbers;
mod output;
mod said;
#[cfg(test)]
mod tests;

pub use arguments::{argument, argument_count};
pub use files::{open_read, path_text};
pub use input::{fill, read, read_all, read_all_from, read_from};
pub use numbers::put_number;
pub use said::{say, say_end, say_error, say_hex, say_number};
use std::io::Stdout;

// How a run stands: well, or the first thing that failed. Only a run that is well has standard output to
// write to, so that nothing is written once something failed. It is no Result: programs keep it in their
// state from call to call and go on after a failure, and each would rebuild that state around a `?`.
#[derive(Clone, Copy)]
pub enum Run {
    Well(Stdout),
    NotRead,
    NotWritten,
    // A call consumed nothing of a piece that has bytes.
    Stuck,
}
