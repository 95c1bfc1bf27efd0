// The current file, and whether a file is ready.
ghost use Rattle.std.specs.Prelude.{◌≡◌};
ghost use Rattle.sending.specs.Transfers.{current_file};
ghost use Rattle.sending.specs.Calls.{is_taken, is_idle, is_busy};

use sender_status::files::{file_at, find_file};
use sender_status::stages::{is_open, is_sending};
use sending::{SentFile, Transfer};

// The file that was begun last.
pub(crate) fn current_file(transfer: Transfer) -> SentFile
    ensures { result ≡ current_file transfer }
{
    file_at(transfer, transfer.count.saturating_sub(1))
}

// Whether there is no room for a file, or one has its id.
pub(crate) fn is_taken(transfer: Transfer, id: &[u8]) -> bool
    ensures { result ≡ is_taken transfer id.now }
{
    transfer.count >= Transfer::FILES || find_file(transfer, id).is_some()
}

// Whether the session is open and no file is being sent.
pub(crate) fn is_idle(transfer: Transfer) -> bool
    ensures { result ≡ is_idle transfer }
{
    is_open(transfer.stage) && !is_sending(current_file(transfer).stage)
}

// Whether the session is open and a file is being sent.
pub(crate) fn is_busy(transfer: Transfer) -> bool
    ensures { result ≡ is_busy transfer }
{
    is_open(transfer.stage) && is_sending(current_file(transfer).stage)
}
