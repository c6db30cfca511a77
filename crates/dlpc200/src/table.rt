// The seven commands, by the source document's titles, their IDs and their CMD1.
ghost use Rattle.std.specs.Prelude.{◌≡◌};
ghost use Rattle.dlpc200.specs.Table.{cmd1_for, command_of};
ghost use Rattle.dlpc200.specs.States.{park_after};

use crate::header::{READ, WRITE};

#[derive(Clone, Copy)]
pub(crate) enum Command {
    ParkDmd,
    UnparkDmd,
    GetDmdSoftwareParkState,
    GetSeqRunState,
    GetEepromFault,
    GetInitFromParallelFlashFail,
    GetOverallLedLampLitState,
}

impl Command {
    // The command of an ID, if it is in the table. An ID that is not is no error here: the packet may
    // have other faults.
    #[tactic(auto, unfolding(crate::specs::Table::find, crate::specs::Table::command_of))]
    pub(crate) fn find(id: usize) -> Option<Command>
        ensures { result ≡ command_of id }
    {
        match id {
            0x0005 => Some(Command::ParkDmd),
            0x0006 => Some(Command::UnparkDmd),
            0x0015 => Some(Command::GetDmdSoftwareParkState),
            0x0016 => Some(Command::GetSeqRunState),
            0x0017 => Some(Command::GetEepromFault),
            0x0029 => Some(Command::GetInitFromParallelFlashFail),
            0x002A => Some(Command::GetOverallLedLampLitState),
            _ => None,
        }
    }

    // The CMD1 that a packet of this command has.
    pub(crate) fn cmd1(self) -> u8
        ensures { result ≡ cmd1_for self }
    {
        match self {
            Command::ParkDmd | Command::UnparkDmd => WRITE,
            Command::GetDmdSoftwareParkState
            | Command::GetSeqRunState
            | Command::GetEepromFault
            | Command::GetInitFromParallelFlashFail
            | Command::GetOverallLedLampLitState => READ,
        }
    }

    // The park state after this command, `before` being the one before it.
    pub(crate) fn park(self, before: u8) -> u8
        ensures { result ≡ park_after self before }
    {
        match self {
            Command::ParkDmd => 1,
            Command::UnparkDmd => 0,
            Command::GetDmdSoftwareParkState
            | Command::GetSeqRunState
            | Command::GetEepromFault
            | Command::GetInitFromParallelFlashFail
            | Command::GetOverallLedLampLitState => before,
        }
    }
}
