// The files of a session: one by its id, and the one at a place.
ghost use Rattle.std.specs.Prelude.{◌≡◌};
ghost use Rattle.sending.specs.Transfers.{file_at, has_file_id, find_file, put_file};

use crate::stages::is_known;
use sending::{SentFile, Transfer};

pub fn find_file(transfer: Transfer, id: &[u8]) -> Option<usize>
    ensures { result ≡ find_file transfer id.now }
{
    transfer.files.iter().position(|file| has_file_id(file, id))
}

fn has_file_id(file: &SentFile, id: &[u8]) -> bool
    ensures { result ≡ has_file_id id.now file.now }
{
    is_known(file.stage) && file.id.is(id)
}

// A place outside the session is free room.
pub fn file_at(transfer: Transfer, j: usize) -> SentFile
    ensures { result ≡ file_at transfer j }
{
    transfer.files.get(j).copied().unwrap_or(SentFile::FREE)
}

pub fn put_file(mut transfer: Transfer, j: usize, file: SentFile) -> Transfer
    ensures { result ≡ put_file transfer j file }
{
    if j < Transfer::FILES {
        transfer.files[j] = file;
    }
    transfer
}
