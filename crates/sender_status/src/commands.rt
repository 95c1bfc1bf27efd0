// A command that was read: whether it is a status of the session, and what its word says.
ghost use Rattle.std.specs.Prelude.{◌≡◌};
ghost use Rattle.sending.specs.Heeding.{word_of, is_status, is_ours, heed_of};

use crate::stages::is_fresh;
use crate::statuses::{on_status, still};
use command::{Action, Command};
use sending::{Heeded, News, Transfer, Word};

// A command that was read; its ids stand in the text, its status in the scratch.
#[tactic(auto, unfolding(sending::specs::Heeding::heed_of))]
pub(crate) fn on_command(
    transfer: Transfer,
    command: Command,
    text: &[u8],
    scratch: &[u8],
) -> Heeded
    ensures { result ≡ heed_of transfer command text.now scratch.now }
{
    let Command {
        action,
        id,
        file_id: file,
        size,
        status: place,
        ..
    } = command;
    if !is_ours(transfer, action, octets::part(text, id.start, id.len)) {
        return still(transfer, News::Ignored);
    }
    let word = word_of(octets::part(scratch, place.start, place.len));
    on_status(
        transfer,
        octets::part(text, file.start, file.len),
        size,
        place,
        word,
    )
}

// Whether a command with this action and id is a status of the session.
#[tactic(auto, unfolding(sending::specs::Heeding::is_ours))]
fn is_ours(transfer: Transfer, action: Action, id: &[u8]) -> bool
    ensures { result ≡ is_ours transfer action id.now }
{
    is_status(action) && !is_fresh(transfer.stage) && transfer.id.is(id)
}

fn is_status(action: Action) -> bool
    ensures { result ≡ is_status action }
{
    matches!(action, Action::Status)
}

// What the whole of a status says.
#[tactic(auto, unfolding(sending::specs::Heeding::word_of))]
fn word_of(status: &[u8]) -> Word
    ensures { result ≡ word_of status.now }
{
    if octets::equal(status, b"OK") {
        Word::Ok
    } else if octets::equal(status, b"STARTED") || octets::equal(status, b"PROGRESS") {
        Word::Going
    } else {
        Word::Other
    }
}
