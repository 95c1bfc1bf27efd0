// The numbers kept of a session's files: what a record adds to them, and one record for another.
ghost use Rattle.std.specs.Prelude.{cond, ◌≡◌};
ghost use Rattle.protocol.specs.Table.{is_started_state, is_done, started_share, done_share, adjusted};

use protocol::{FileRecord, FileState};

// The number of started files, with a new record for an old one.
pub(crate) fn started_with(kept: u64, old: FileRecord, new: FileRecord) -> u64
    ensures { result ≡ adjusted kept (started_share old) (started_share new) }
{
    adjusted(kept, started_share(old.state), started_share(new.state))
}

// The sum of counts of done files, likewise.
pub(crate) fn done_bytes_with(kept: u64, old: FileRecord, new: FileRecord) -> u64
    ensures { result ≡ adjusted kept (done_share old) (done_share new) }
{
    adjusted(
        kept,
        done_share(old.state, old.count),
        done_share(new.state, new.count),
    )
}

// What a record in that state adds to the number of started files.
fn started_share(state: FileState) -> u64
    ensures { result ≡ cond (is_started_state state) 1 0 }
{
    u64::from(matches!(state, FileState::Started))
}

// What a record in that state with that count adds to the sum of counts of done files.
fn done_share(state: FileState, count: u64) -> u64
    ensures { result ≡ cond (is_done state) count 0 }
{
    match state {
        FileState::Done => count,
        _ => 0,
    }
}

// A kept number with the share of a new record for that of an old one.
#[tactic(auto, unfolding(protocol::specs::Table::adjusted))]
fn adjusted(kept: u64, old: u64, new: u64) -> u64
    ensures { result ≡ adjusted kept old new }
{
    kept.saturating_sub(old).saturating_add(new)
}
