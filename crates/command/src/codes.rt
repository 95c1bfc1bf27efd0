// The codes of the words, as the table of keys counts them: those of an enum are its variants in order,
// and code 0 is what absent means.
//
// Each enum has its own pair of functions, since each ties one enum to its table in specs/Slots; a cast
// goes one way only, so that the way back is the table's rows.
ghost use Rattle.std.specs.Prelude.{◌≡◌};
ghost use Rattle.command.specs.Slots.{action_code, action_of, file_type_code, file_type_of};
ghost use Rattle.command.specs.Slots.{transmission_code, transmission_of};

use crate::{Action, FileType, Transmission};

impl Action {
    pub fn code(self) -> u64
        ensures { result ≡ action_code self }
    {
        self as u64
    }
}

impl FileType {
    pub fn code(self) -> u64
        ensures { result ≡ file_type_code self }
    {
        self as u64
    }
}

impl Transmission {
    pub fn code(self) -> u64
        ensures { result ≡ transmission_code self }
    {
        self as u64
    }
}

// A code that is none of an action's is that of none.
impl From<u64> for Action {
    ghost from_gives = { λ code action. action ≡ action_of code };

    #[tactic(auto, unfolding(crate::specs::Slots::action_of))]
    fn from(code: u64) -> Action {
        match code {
            1 => Action::Send,
            2 => Action::Receive,
            3 => Action::File,
            4 => Action::Data,
            5 => Action::EndData,
            6 => Action::Finish,
            7 => Action::Cancel,
            8 => Action::Status,
            _ => Action::None,
        }
    }
}

impl From<u64> for FileType {
    ghost from_gives = { λ code file_type. file_type ≡ file_type_of code };

    #[tactic(auto, unfolding(crate::specs::Slots::file_type_of))]
    fn from(code: u64) -> FileType {
        match code {
            1 => FileType::Directory,
            2 => FileType::Symlink,
            3 => FileType::Link,
            _ => FileType::Regular,
        }
    }
}

impl From<u64> for Transmission {
    ghost from_gives = { λ code transmission. transmission ≡ transmission_of code };

    #[tactic(auto, unfolding(crate::specs::Slots::transmission_of))]
    fn from(code: u64) -> Transmission {
        match code {
            1 => Transmission::Rsync,
            _ => Transmission::Simple,
        }
    }
}
