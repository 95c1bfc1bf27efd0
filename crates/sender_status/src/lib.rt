// What the sender hears makes of its session: a report's text is read, and a status of the session allows
// or stops it, or closes or stops a file of it.
//
// Public beside `on_report` are the session's files and stages, which the calls that write need too.
#![tactic(auto)]

mod commands;
pub mod files;
pub mod stages;
mod statuses;

ghost use Rattle.std.specs.Prelude.{◌≡◌};
ghost use Rattle.octets.specs.Outcome.{outcome};
ghost use Rattle.command.specs.Read.{read_of};
ghost use Rattle.sending.specs.Calls.{read_heed, text_heed, report_heed};

use commands::on_command;
use frames::Report;
use protocol::refusals::{SHORT_BUFFER, TEXT_BROKEN_OFF, TEXT_TOO_LONG};
use sending::{Heeded, News, Transfer};
use statuses::still;

// A report, given its text.
#[tactic(auto, unfolding(sending::specs::Calls::report_heed))]
pub fn on_report(transfer: Transfer, report: Report, text: &[u8], scratch: &mut [u8]) -> Heeded
    ensures { outcome result scratch.new ≡ report_heed transfer report text.now scratch.old }
{
    match report {
        Report::Nothing => still(transfer, News::Nothing),
        Report::InPiece(_, _) | Report::InCarry(_) => on_text(transfer, text, scratch),
        Report::TooLong => still(transfer, News::Refused(TEXT_TOO_LONG)),
        Report::Abandoned => still(transfer, News::Refused(TEXT_BROKEN_OFF)),
        Report::ShortCarry => still(transfer, News::Refused(SHORT_BUFFER)),
    }
}

// A text of drag and drop is ignored, and nothing is read of it; a command text is read.
fn on_text(transfer: Transfer, text: &[u8], scratch: &mut [u8]) -> Heeded
    ensures { outcome result scratch.new ≡ text_heed transfer text.now scratch.old }
{
    if octets::starts_with(text, b"72;") {
        return still(transfer, News::Ignored);
    }
    on_command_text(transfer, text, scratch)
}

// A command text is read; a refusal is told.
fn on_command_text(transfer: Transfer, text: &[u8], scratch: &mut [u8]) -> Heeded
    ensures { let t = text.now in
        outcome result scratch.new ≡ read_heed transfer t (read_of t scratch.old) }
{
    match command_reader::read(text, scratch) {
        Ok(command) => on_command(transfer, command, text, scratch),
        Err(refusal) => still(transfer, News::Refused(refusal.number())),
    }
}
