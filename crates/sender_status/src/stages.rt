// Stages of a session and of a file.
ghost use Rattle.std.specs.Prelude.{◌≡◌};
ghost use Rattle.sending.specs.Transfers.{is_known, is_fresh, is_waiting, is_open, is_sending, closed_stage, piece_stage};

use sending::{FileStage, Stage};

pub fn is_fresh(stage: Stage) -> bool
    ensures { result ≡ is_fresh stage }
{
    matches!(stage, Stage::Fresh)
}

pub fn is_waiting(stage: Stage) -> bool
    ensures { result ≡ is_waiting stage }
{
    matches!(stage, Stage::Waiting)
}

pub fn is_open(stage: Stage) -> bool
    ensures { result ≡ is_open stage }
{
    matches!(stage, Stage::Open)
}

pub fn is_known(stage: FileStage) -> bool
    ensures { result ≡ is_known stage }
{
    !matches!(stage, FileStage::Free)
}

pub fn is_sending(stage: FileStage) -> bool
    ensures { result ≡ is_sending stage }
{
    matches!(stage, FileStage::Sending)
}

// After an OK that agrees.
pub fn closed(stage: FileStage) -> FileStage
    ensures { result ≡ closed_stage stage }
{
    match stage {
        FileStage::Sent => FileStage::Closed,
        _ => stage,
    }
}

// After a piece, the last one or not.
pub fn after_piece(last: bool) -> FileStage
    ensures { result ≡ piece_stage last }
{
    if last {
        FileStage::Sent
    } else {
        FileStage::Sending
    }
}
