// A command that was read in a recording.
ghost use Rattle.hearing.specs.Steps.{Near};

use command::Command;

// The command, the place in the recording where its text starts, the text, and the scratch where its part
// stands. That place with one in the text is no large number.
#[derive(Clone, Copy)]
pub struct Sighted<'a> {
    pub command: Command,
    pub from: usize,
    pub text: &'a [u8],
    pub scratch: &'a [u8],
    ghost near: { Near from command },
}
