// The office's calls on a sender: send, file, piece, finish, hear.
//
// A call takes the sender by value and answers with the sender afterwards. Each is equal to its
// definition in `sending`, for any sender and any lent buffers. Not here: reading files, and bringing
// what is written to the line and the line's bytes to hear.
#![tactic(auto)]

mod answers;
mod commands;
mod files;
mod steps;

ghost use Rattle.std.specs.Prelude.{◌≡◌};
ghost use Rattle.octets.specs.Outcome.{outcome};
ghost use Rattle.sending.specs.Calls.{send_of, file_of, piece_of, finish_of, listening, hear_of};

use answers::{gate, refused, wrote};
use protocol::refusals::SHORT_BUFFER;
use protocol::{FileRecord, Id};
use sender_status::on_report;
use sender_status::stages::is_fresh;
use sending::{Listened, Sender, Stage, Transfer, Wrote};

// Begins the session with this id.
#[tactic(auto, using(crate::proofs::GateLaws::calls), unfolding(sending::specs::Calls::send_of))]
pub fn send(sender: Sender, id: &[u8], out: &mut [u8]) -> Wrote
    ensures { outcome result out.new ≡ send_of sender id.now out.old }
{
    let transfer = sender.transfer;
    if let Some(number) = gate(out.len(), false, is_fresh(transfer.stage)) {
        return refused(sender, number);
    }
    let next = steps::asked(transfer, id);
    wrote(sender, next, commands::write_send(id, out))
}

// Begins a file, given its id, its name and its length; a size of 0 declares none.
#[tactic(auto, using(crate::proofs::GateLaws::calls), unfolding(sending::specs::Calls::file_of, sending::specs::Calls::file_writes))]
pub fn file(sender: Sender, id: &[u8], name: &[u8], size: u64, out: &mut [u8]) -> Wrote
    ensures { outcome result out.new ≡ file_of sender id.now name.now size out.old }
{
    let transfer = sender.transfer;
    let refusal = gate(
        out.len(),
        files::is_taken(transfer, id),
        files::is_idle(transfer),
    );
    if let Some(number) = refusal {
        return refused(sender, number);
    }
    if id.len() > Id::ROOM {
        return refused(sender, commands::long_refusal(id));
    }
    let next = steps::begun(transfer, id);
    wrote(
        sender,
        next,
        commands::write_file(transfer, id, name, size, out),
    )
}

// Sends the next piece of the current file; the last one ends it.
#[tactic(auto, using(crate::proofs::GateLaws::calls), unfolding(sending::specs::Calls::piece_of))]
pub fn piece(sender: Sender, bytes: &[u8], last: bool, out: &mut [u8]) -> Wrote
    ensures { outcome result out.new ≡ piece_of sender bytes.now last out.old }
{
    let transfer = sender.transfer;
    let refusal = gate(
        out.len(),
        bytes.len() > FileRecord::PART_LIMIT,
        files::is_busy(transfer),
    );
    if let Some(number) = refusal {
        return refused(sender, number);
    }
    let file = files::current_file(transfer);
    let next = steps::added(transfer, bytes.len(), last);
    wrote(
        sender,
        next,
        commands::write_piece(transfer, file, bytes, last, out),
    )
}

// Ends the session.
#[tactic(auto, using(crate::proofs::GateLaws::calls), unfolding(sending::specs::Calls::finish_of))]
pub fn finish(sender: Sender, out: &mut [u8]) -> Wrote
    ensures { outcome result out.new ≡ finish_of sender out.old }
{
    let transfer = sender.transfer;
    if let Some(number) = gate(out.len(), false, files::is_idle(transfer)) {
        return refused(sender, number);
    }
    let next = Transfer {
        stage: Stage::Finished,
        ..transfer
    };
    wrote(sender, next, commands::write_finish(transfer, out))
}

// Takes one piece of the line through the first command text that ends. 9 consumes nothing.
#[tactic(auto, unfolding(sending::specs::Calls::hear_of, sending::specs::Calls::scanned_hear))]
pub fn hear(sender: Sender, piece: &[u8], carry: &mut [u8], scratch: &mut [u8]) -> Listened
    ensures { listening result carry.new scratch.new
        ≡ hear_of sender piece.now carry.old scratch.old }
{
    if answers::is_short(carry.len(), scratch.len()) {
        return answers::unheard(sender, SHORT_BUFFER);
    }
    let scanned = frames::scan(sender.framing, piece, carry);
    let report = scanned.report;
    let heeded = on_report(
        sender.transfer,
        report,
        frames::text(piece, carry, report),
        scratch,
    );
    answers::listened(scanned, heeded)
}
