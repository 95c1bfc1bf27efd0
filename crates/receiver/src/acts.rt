// What a report of the frames says, and what it does to the table: a command text is read and obeyed, one
// of drag and drop is told alone.
ghost use Rattle.std.specs.Prelude.{◌≡◌};
ghost use Rattle.octets.specs.Outcome.{outcome};
ghost use Rattle.command.specs.Read.{read_of};
ghost use Rattle.sessions.specs.Leaving.{taken};
ghost use Rattle.protocol.specs.Calls.{acted, report_act};
ghost use Rattle.receiver.specs.Said.{read_said, text_said, said_of};

use command::Command;
use frames::Report;
use protocol::refusals::{SHORT_BUFFER, TEXT_BROKEN_OFF, TEXT_TOO_LONG};
use protocol::{Table, Told};
use sessions::next::Next;

// What a step leaves, and the command that was read for it.
#[derive(Clone, Copy)]
pub(crate) struct Acted {
    pub next: Next,
    pub command: Command,
}

// What a report says, given its text: the command that was read, or what is told alone. It touches no
// table. Its three numbers stand in `sender_status` too: one function for both would answer an Option, to
// be taken apart before the texts are, which is no plainer than three lines.
#[tactic(auto, unfolding(crate::specs::Said::said_of))]
pub fn hear(report: Report, text: &[u8], scratch: &mut [u8]) -> Result<Command, Told>
    ensures { outcome result scratch.new ≡ said_of report text.now scratch.old }
{
    match report {
        Report::Nothing => Err(Told::Nothing),
        Report::InPiece(_, _) | Report::InCarry(_) => hear_text(text, scratch),
        Report::TooLong => Err(Told::Refused(TEXT_TOO_LONG)),
        Report::Abandoned => Err(Told::Refused(TEXT_BROKEN_OFF)),
        Report::ShortCarry => Err(Told::Refused(SHORT_BUFFER)),
    }
}

// A text of drag and drop is left to other calls, unread.
fn hear_text(text: &[u8], scratch: &mut [u8]) -> Result<Command, Told>
    ensures { outcome result scratch.new ≡ text_said text.now scratch.old }
{
    if octets::starts_with(text, b"72;") {
        return Err(Told::DragDrop);
    }
    read(text, scratch)
}

// A command text is read.
fn read(text: &[u8], scratch: &mut [u8]) -> Result<Command, Told>
    ensures { outcome result scratch.new ≡ read_said (read_of text.now scratch.old) }
{
    command_reader::read(text, scratch).map_err(|refusal| Told::Refused(refusal.number()))
}

// A report, given its text: its command is obeyed.
pub(crate) fn act(table: Table, report: Report, text: &[u8], scratch: &mut [u8]) -> Acted
    ensures { acted (taken table result.next) result.command scratch.new
        ≡ report_act table report text.now scratch.old }
{
    match hear(report, text, scratch) {
        Ok(command) => Acted {
            next: sessions::obey(table, command, text, scratch),
            command,
        },
        Err(told) => Acted {
            next: sessions::next::tell(table, told),
            command: Command::NONE,
        },
    }
}
