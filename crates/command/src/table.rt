// The table of the nine commands: their bytes CMD1 and CMD2, the size of their data, their order.
ghost use Rattle.std.specs.Prelude.{◌≡◌};
ghost use Rattle.command.specs.Inner.{total};
ghost use Rattle.command.specs.Table.{readable, cmd1_for, cmd2_for, command_of, layout};

#[derive(Clone, Copy)]
pub enum Command {
    DisplayMode,
    TestPattern,
    LedCurrent,
    StaticColour,
    DisplaySetting,
    VideoInput,
    VideoMode,
    PatternSequence,
    SequenceRun,
}

// A command's bytes.
#[derive(Clone, Copy)]
pub(crate) struct Code {
    pub(crate) cmd1: u8,
    pub(crate) cmd2: u8,
}

impl Code {
    pub(crate) fn new(cmd1: u8, cmd2: u8) -> Code
        ensures { (result.cmd1 ≡ cmd1) × (result.cmd2 ≡ cmd2) }
    {
        Code { cmd1, cmd2 }
    }
}

impl Command {
    // The commands in table order.
    pub(crate) const TABLE: [Command; 9] = [
        Command::DisplayMode,
        Command::TestPattern,
        Command::LedCurrent,
        Command::StaticColour,
        Command::DisplaySetting,
        Command::VideoInput,
        Command::VideoMode,
        Command::PatternSequence,
        Command::SequenceRun,
    ];

    // The command of these bytes, if it is in the table. Not `TryFrom`: that it is not there is one fault of a
    // packet among others, and no error yet.
    #[tactic(auto, unfolding(crate::specs::Table::command_of, crate::specs::Table::find))]
    pub fn find(cmd1: u8, cmd2: u8) -> Option<Command>
        ensures { result ≡ command_of cmd1 cmd2 }
    {
        match cmd1 {
            0x01 => match cmd2 {
                0x01 => Some(Command::DisplayMode),
                0x03 => Some(Command::TestPattern),
                0x04 => Some(Command::LedCurrent),
                0x06 => Some(Command::StaticColour),
                0x07 => Some(Command::DisplaySetting),
                _ => None,
            },
            0x02 => match cmd2 {
                0x00 => Some(Command::VideoInput),
                0x01 => Some(Command::VideoMode),
                _ => None,
            },
            0x04 => match cmd2 {
                0x00 => Some(Command::PatternSequence),
                0x02 => Some(Command::SequenceRun),
                _ => None,
            },
            _ => None,
        }
    }

    // CMD1 and CMD2.
    pub(crate) fn code(self) -> Code
        ensures { (result.cmd1 ≡ cmd1_for self) × (result.cmd2 ≡ cmd2_for self) }
    {
        match self {
            Command::DisplayMode => Code::new(0x01, 0x01),
            Command::TestPattern => Code::new(0x01, 0x03),
            Command::LedCurrent => Code::new(0x01, 0x04),
            Command::StaticColour => Code::new(0x01, 0x06),
            Command::DisplaySetting => Code::new(0x01, 0x07),
            Command::VideoInput => Code::new(0x02, 0x00),
            Command::VideoMode => Code::new(0x02, 0x01),
            Command::PatternSequence => Code::new(0x04, 0x00),
            Command::SequenceRun => Code::new(0x04, 0x02),
        }
    }

    // How many bytes its data has.
    pub(crate) fn size(self) -> usize
        ensures { result ≡ total (layout self) }
    {
        match self {
            Command::DisplayMode => 1,
            Command::TestPattern => 1,
            Command::LedCurrent => 6,
            Command::StaticColour => 4,
            Command::DisplaySetting => 3,
            Command::VideoInput => 12,
            Command::VideoMode => 3,
            Command::PatternSequence => 17,
            Command::SequenceRun => 1,
        }
    }

    // All but 01 06 can be read.
    pub(crate) fn readable(self) -> bool
        ensures { result ≡ readable self }
    {
        !matches!(self, Command::StaticColour)
    }
}
