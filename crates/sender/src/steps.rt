// What becomes of a session when a command is written.
ghost use Rattle.std.specs.Prelude.{◌<◌, ◌≡◌};
ghost use Rattle.protocol.specs.Table.{file_room};
ghost use Rattle.sending.specs.Transfers.{asked, begun, grown, added};

use crate::files::current_file;
use protocol::Id;
use sender_status::files::put_file;
use sender_status::stages::after_piece;
use sending::{FileStage, SentFile, Stage, Transfer};

// Send is written: the session has its id.
pub(crate) fn asked(transfer: Transfer, id: &[u8]) -> Transfer
    ensures { result ≡ asked transfer id.now }
{
    Transfer {
        stage: Stage::Waiting,
        id: Id::of(id),
        ..transfer
    }
}

// A file more, of which nothing is sent.
pub(crate) fn begun(mut transfer: Transfer, id: &[u8]) -> Transfer
    requires { transfer.count < file_room }
    ensures { result ≡ begun transfer id.now }
{
    transfer.files[transfer.count] = SentFile {
        stage: FileStage::Sending,
        id: Id::of(id),
        sent: 0,
    };
    transfer.count += 1;
    transfer
}

// The current file with n bytes more.
pub(crate) fn added(transfer: Transfer, n: usize, last: bool) -> Transfer
    ensures { result ≡ added transfer n last }
{
    let file = current_file(transfer);
    put_file(
        transfer,
        transfer.count.saturating_sub(1),
        SentFile {
            stage: after_piece(last),
            sent: grown(file.sent, n),
            ..file
        },
    )
}

// A count with n bytes more. It stays at its type's largest.
#[tactic(auto, unfolding(sending::specs::Transfers::grown))]
fn grown(sent: u64, n: usize) -> u64
    ensures { result ≡ grown sent n }
{
    sent.saturating_add(n as u64)
}
