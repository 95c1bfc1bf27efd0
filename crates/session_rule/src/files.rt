// A session's files: one by its id, free room, and the record at a place. The files are lent: a callee
// copies what it is given.
ghost use Rattle.std.specs.Prelude.{◌≡◌, slice_index_or};
ghost use Rattle.protocol.specs.Table.{no_file, first, is_used, is_free, is_started_state, has_file_id};

use protocol::{FileRecord, FileState};

// This search and the next are a line each, as those of `sessions` are: one function over the record types
// would need a trait and its laws, and be no plainer.
pub(crate) fn find_file(files: &[FileRecord], id: &[u8]) -> Option<usize>
    ensures { result ≡ first (has_file_id id.now) files.now }
{
    files.iter().position(|file| has_file_id(file, id))
}

pub(crate) fn free_file(files: &[FileRecord]) -> Option<usize>
    ensures { result ≡ first is_free files.now }
{
    files.iter().position(|file| !is_used(file.state))
}

// A place outside the session is free room.
pub(crate) fn file_at(files: &[FileRecord], j: usize) -> FileRecord
    ensures { result ≡ slice_index_or files.now j no_file }
{
    files.get(j).copied().unwrap_or(FileRecord::FREE)
}

fn has_file_id(file: &FileRecord, id: &[u8]) -> bool
    ensures { result ≡ has_file_id id.now file.now }
{
    is_used(file.state) && file.id.is(id)
}

fn is_used(state: FileState) -> bool
    ensures { result ≡ is_used state }
{
    !matches!(state, FileState::Free)
}

pub(crate) fn is_started(state: FileState) -> bool
    ensures { result ≡ is_started_state state }
{
    matches!(state, FileState::Started)
}
