// The states that the commands read. The host supplies them, so they are numbers alone and mean
// something whatever they are.
ghost use Rattle.std.specs.Prelude.{◌≡◌};
ghost use Rattle.dlpc200.specs.States.{in_range, shown_of};

use crate::table::Command;

#[repr(C)]
#[derive(Clone, Copy)]
pub struct States {
    // 0015: 0 DMD park not requested by the software, 1 requested.
    pub park: u8,
    // 0016: 0 PWM sequence stopped, 1 running.
    pub sequence: u8,
    // 0017: 0 no EEPROM fault, 1 fault.
    pub eeprom: u8,
    // 0029: the parallel flash initialization status, 0 to 7.
    pub flash: u8,
    // 002A: 0 LEDs not lit, 1 all lit.
    pub lit: u8,
}

impl States {
    // Each state is in its section's range.
    pub(crate) fn in_range(self) -> bool
        ensures { result ≡ in_range self }
    {
        self.park <= 1 && self.sequence <= 1 && self.eeprom <= 1 && self.flash <= 7 && self.lit <= 1
    }

    // The state that a command reads, if it reads one.
    pub(crate) fn shown(self, command: Command) -> Option<u8>
        ensures { result ≡ shown_of self command }
    {
        match command {
            Command::ParkDmd | Command::UnparkDmd => None,
            Command::GetDmdSoftwareParkState => Some(self.park),
            Command::GetSeqRunState => Some(self.sequence),
            Command::GetEepromFault => Some(self.eeprom),
            Command::GetInitFromParallelFlashFail => Some(self.flash),
            Command::GetOverallLedLampLitState => Some(self.lit),
        }
    }
}
