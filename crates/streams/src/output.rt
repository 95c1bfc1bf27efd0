// Standard output, and how a run stands.
ghost use Rattle.std.specs.Prelude.{◌≡◌, false, MatchOption};
ghost use Rattle.streams.specs.Streams.{is_well, wrote, Keeps};

use crate::Run;
use crate::hex::Hex;
use crate::said::say;
use std::fmt::Display;
use std::io::{Stderr, Stdout};

impl Run {
    pub fn is_well(self) -> bool
        ensures { result ≡ is_well self }
    {
        matches!(self, Run::Well(_))
    }

    // Writes the bytes as they are.
    pub fn text(self, s: &[u8]) -> Run
        ensures { Keeps self result }
    {
        match self.out() {
            Some(out) => written(out, Print::write_all(&out, s).is_ok()),
            None => self,
        }
    }

    // Writes a number in decimal.
    pub fn number(self, n: usize) -> Run
        ensures { Keeps self result }
    {
        self.print(n)
    }

    // Writes the bytes in lower-case hex.
    pub fn hex(self, s: &[u8]) -> Run
        ensures { Keeps self result }
    {
        self.print(Hex(s))
    }

    // Writes a value as it is printed.
    fn print<D: Display + Drop>(self, value: D) -> Run
        ensures { Keeps self result }
    {
        match self.out() {
            Some(out) => written(out, Print::print(&out, value).is_ok()),
            None => self,
        }
    }

    // Standard output, while nothing failed.
    fn out(self) -> Option<Stdout>
        ensures { MatchOption result (is_well self ≡ false) (λ out. self ≡ Run.Well out) }
    {
        if let Run::Well(out) = self {
            Some(out)
        } else {
            None
        }
    }

    // Says on standard error what failed, if something did: a program has no exit status.
    pub fn end(self, err: Stderr, program: &[u8]) {
        match self {
            Run::Well(_) => {}
            Run::NotRead => say_of(err, program, b"cannot read standard input\n"),
            Run::NotWritten => say_of(err, program, b"cannot write standard output\n"),
            Run::Stuck => say_of(err, program, b"a call consumed nothing\n"),
        }
    }
}

fn written(out: Stdout, ok: bool) -> Run
    ensures { result ≡ wrote out ok }
{
    if ok { Run::Well(out) } else { Run::NotWritten }
}

fn say_of(err: Stderr, program: &[u8], what: &[u8]) {
    say(err, program);
    say(err, b": ");
    say(err, what);
}
