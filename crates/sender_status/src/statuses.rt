// What a status makes of the session or of a file of it.
ghost use Rattle.std.specs.Prelude.{◌≡◌};
ghost use Rattle.sending.specs.Heeding as Heeding;

use crate::files::{file_at, find_file, put_file};
use crate::stages::{closed, is_waiting};
use command::Place;
use decimal::Number;
use sending::{FileStage, Heeded, News, SentFile, Stage, Transfer, Word};

// A status of the session, by its fid, its size, its place in the scratch and what its word says.
#[tactic(auto, unfolding(sending::specs::Heeding::status_heed))]
pub(crate) fn on_status(
    transfer: Transfer,
    file: &[u8],
    size: Number,
    place: Place,
    word: Word,
) -> Heeded
    ensures { result ≡ Heeding.status_heed transfer file.now size place word }
{
    if file.is_empty() {
        return session(transfer, place, word);
    }
    found(transfer, size, place, word, find_file(transfer, file))
}

// A status without fid.
#[tactic(auto, unfolding(sending::specs::Heeding::session_heed))]
fn session(transfer: Transfer, place: Place, word: Word) -> Heeded
    ensures { result ≡ Heeding.session_heed transfer place word }
{
    match word {
        Word::Ok => allowed(transfer),
        Word::Going => still(transfer, News::Noted),
        Word::Other => Heeded {
            transfer: Transfer {
                stage: Stage::Stopped,
                ..transfer
            },
            news: News::SessionStopped(place),
        },
    }
}

// The session's OK.
fn allowed(transfer: Transfer) -> Heeded
    ensures { result ≡ Heeding.allow_heed transfer }
{
    if is_waiting(transfer.stage) {
        return Heeded {
            transfer: Transfer {
                stage: Stage::Open,
                ..transfer
            },
            news: News::Allowed,
        };
    }
    still(transfer, News::Noted)
}

// A status for a file, where it was found.
#[tactic(auto, unfolding(sending::specs::Heeding::found_heed))]
fn found(transfer: Transfer, size: Number, place: Place, word: Word, found: Option<usize>) -> Heeded
    ensures { result ≡ Heeding.found_heed transfer size place word found }
{
    match found {
        None => still(transfer, News::Ignored),
        Some(i) => file(transfer, i, size, place, word),
    }
}

#[tactic(auto, unfolding(sending::specs::Heeding::file_heed))]
fn file(transfer: Transfer, i: usize, size: Number, place: Place, word: Word) -> Heeded
    ensures { result ≡ Heeding.file_heed transfer i size place word }
{
    match word {
        Word::Ok => ok(transfer, i, size),
        Word::Going => still(transfer, News::Noted),
        Word::Other => stopped(transfer, i, place),
    }
}

// A file's OK.
#[tactic(auto, unfolding(sending::specs::Heeding::ok_heed))]
fn ok(transfer: Transfer, i: usize, size: Number) -> Heeded
    ensures { result ≡ Heeding.ok_heed transfer i size }
{
    let file = file_at(transfer, i);
    if is_count(size, file.sent) {
        return Heeded {
            transfer: put_file(
                transfer,
                i,
                SentFile {
                    stage: closed(file.stage),
                    ..file
                },
            ),
            news: News::Noted,
        };
    }
    still(transfer, News::Differs(i, size))
}

// Whether a size is the count n.
fn is_count(size: Number, n: u64) -> bool
    ensures { result ≡ Heeding.is_count size n }
{
    !size.negative && size.magnitude == n
}

fn stopped(transfer: Transfer, i: usize, place: Place) -> Heeded
    ensures { result ≡ Heeding.stop_heed transfer i place }
{
    let file = file_at(transfer, i);
    Heeded {
        transfer: put_file(
            transfer,
            i,
            SentFile {
                stage: FileStage::Stopped,
                ..file
            },
        ),
        news: News::FileStopped(i, place),
    }
}

// Nothing changes, and something is told.
pub(crate) fn still(transfer: Transfer, news: News) -> Heeded
    ensures { result ≡ Heeding.heeded transfer news }
{
    Heeded { transfer, news }
}
