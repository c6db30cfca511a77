// The settings of the head: a part for each command, the factory values, a command's values out of them and a write stored in them.
ghost use Rattle.std.specs.Prelude.{◌≡◌};
ghost use Rattle.command.specs.Settings.{factory as factory_of, store as store_in, values_of};
ghost use Rattle.command.specs.Value.{command_in, values_in, value_from};

use crate::table::Command;
use crate::value::Value;

// The display mode in which a sequence can run.
pub(crate) const PATTERN_SEQUENCE_MODE: u8 = 4;

// LED drive, in counts.
#[repr(C)]
#[derive(Clone, Copy, PartialEq, Eq)]
pub struct Drive(pub u16);

// A time, in microseconds.
#[repr(C)]
#[derive(Clone, Copy, PartialEq, Eq)]
pub struct Microseconds(pub u32);

// 01 04
#[repr(C)]
#[derive(Clone, Copy, PartialEq, Eq)]
pub struct LedCurrent {
    pub red: Drive,
    pub green: Drive,
    pub blue: Drive,
}

// 01 06; the last byte is 0.
#[repr(C)]
#[derive(Clone, Copy, PartialEq, Eq)]
pub struct StaticColour {
    pub blue: u8,
    pub green: u8,
    pub red: u8,
    pub last: u8,
}

// 01 07
#[repr(C)]
#[derive(Clone, Copy, PartialEq, Eq)]
pub struct DisplaySetting {
    pub long: u8,
    pub short: u8,
    pub rotate: u16,
}

// 02 00
#[repr(C)]
#[derive(Clone, Copy, PartialEq, Eq)]
pub struct VideoInput {
    pub x: u16,
    pub y: u16,
    pub pixel: u16,
    pub line: u16,
    pub width: u16,
    pub height: u16,
}

// 02 01
#[repr(C)]
#[derive(Clone, Copy, PartialEq, Eq)]
pub struct VideoMode {
    pub rate: u8,
    pub depth: u8,
    pub led: u16,
}

// 04 00
#[repr(C)]
#[derive(Clone, Copy, PartialEq, Eq)]
pub struct PatternSequence {
    pub depth: u8,
    pub count: u8,
    pub inversion: u8,
    pub trigger: u8,
    pub delay: Microseconds,
    pub period: Microseconds,
    pub exposure: Microseconds,
    pub led: u32,
}

// The values of every command in the table. Each field, here and in the parts, is as wide as the room
// up to the next one: a record that is lent has no holes. They are numbers and no enums, since the record may
// have any content; the rules say which values are allowed.
#[repr(C)]
#[derive(Clone, Copy, PartialEq, Eq)]
pub struct Settings {
    // 01 01 display mode
    pub mode: u8,
    // 01 03 test pattern
    pub pattern: u8,
    // 01 04 LED current
    pub current: LedCurrent,
    // 01 06 static colour
    pub colour: StaticColour,
    // 01 07 display setting
    pub setting: DisplaySetting,
    // 02 00 video input
    pub input: VideoInput,
    // 02 01 video mode
    pub video: VideoMode,
    // 04 00 pattern sequence
    pub sequence: PatternSequence,
    // 04 02 sequence run
    pub run: u32,
}

impl Settings {
    pub const FACTORY: Settings = Settings {
        mode: 0,
        pattern: 0,
        current: LedCurrent {
            red: Drive(274),
            green: Drive(274),
            blue: Drive(274),
        },
        colour: StaticColour {
            blue: 0,
            green: 0,
            red: 0,
            last: 0,
        },
        setting: DisplaySetting {
            long: 0,
            short: 1,
            rotate: 0,
        },
        input: VideoInput {
            x: 608,
            y: 684,
            pixel: 0,
            line: 0,
            width: 608,
            height: 684,
        },
        video: VideoMode {
            rate: 60,
            depth: 8,
            led: 1,
        },
        sequence: PatternSequence {
            depth: 1,
            count: 1,
            inversion: 0,
            trigger: 0,
            delay: Microseconds(0),
            period: Microseconds(0),
            exposure: Microseconds(0),
            led: 0,
        },
        run: 0,
    };

    // The factory values.
    #[tactic(auto, unfolding(crate::specs::Settings::factory))]
    pub fn factory() -> Settings
        ensures { result ≡ factory_of }
    {
        Settings::FACTORY
    }
}

// The values of a command.
pub fn value_of(s: Settings, c: Command) -> Value
    ensures { result ≡ value_from c (values_of c s) }
{
    match c {
        Command::DisplayMode => Value::DisplayMode(s.mode),
        Command::TestPattern => Value::TestPattern(s.pattern),
        Command::LedCurrent => Value::LedCurrent(s.current),
        Command::StaticColour => Value::StaticColour(s.colour),
        Command::DisplaySetting => Value::DisplaySetting(s.setting),
        Command::VideoInput => Value::VideoInput(s.input),
        Command::VideoMode => Value::VideoMode(s.video),
        Command::PatternSequence => Value::PatternSequence(s.sequence),
        Command::SequenceRun => Value::SequenceRun(s.run),
    }
}

// The settings after a write. Leaving the mode of sequences stops a running one.
#[tactic(auto, unfolding(crate::specs::Settings::store, crate::specs::Settings::values_after))]
pub(crate) fn stored(s: Settings, v: Value) -> Settings
    ensures { result ≡ store_in (command_in v) (values_in v) s }
{
    let mut t = s;
    match v {
        Value::DisplayMode(m) => {
            t.mode = m;
            if m != PATTERN_SEQUENCE_MODE {
                t.run = 0;
            }
        }
        Value::TestPattern(p) => t.pattern = p,
        Value::LedCurrent(q) => t.current = q,
        Value::StaticColour(q) => t.colour = q,
        Value::DisplaySetting(q) => t.setting = q,
        Value::VideoInput(q) => t.input = q,
        Value::VideoMode(q) => t.video = q,
        Value::PatternSequence(q) => t.sequence = q,
        Value::SequenceRun(r) => t.run = r,
    }
    t
}
