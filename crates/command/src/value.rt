// A command with its values: what a write carries and a read answers, read from its data and written to it.
#![tactic(auto, unfolding(crate::specs::Value::data_in, crate::specs::Data::join_all))]

ghost use Rattle.std.specs.Prelude.{◌≡◌, ℕ, List, ◌++◌, ◌≤◌, ◌<◌, length};
ghost use Rattle.command.specs.Data.{join_all};
ghost use Rattle.command.specs.Value.{command_in, value_from, data_in};
ghost use Rattle.command.specs.Fields.{current_values, colour_values, setting_values, input_values, video_values, sequence_values};
ghost use Rattle.command.specs.Table.{layout};
ghost use Rattle.command.specs.declared.table.Command.TheVariants as command;
ghost use Rattle.command.specs.Inner.{total, split_from, parsed};

use crate::data::{Data, byte_at, long_at, word_at};
use crate::settings::{
    DisplaySetting, Drive, LedCurrent, Microseconds, PatternSequence, StaticColour, VideoInput,
    VideoMode,
};
use crate::table::Command;

#[derive(Clone, Copy)]
pub enum Value {
    DisplayMode(u8),
    TestPattern(u8),
    LedCurrent(LedCurrent),
    StaticColour(StaticColour),
    DisplaySetting(DisplaySetting),
    VideoInput(VideoInput),
    VideoMode(VideoMode),
    PatternSequence(PatternSequence),
    SequenceRun(u32),
}

impl Value {
    pub(crate) fn command(self) -> Command
        ensures { result ≡ command_in self }
    {
        match self {
            Value::DisplayMode(_) => Command::DisplayMode,
            Value::TestPattern(_) => Command::TestPattern,
            Value::LedCurrent(_) => Command::LedCurrent,
            Value::StaticColour(_) => Command::StaticColour,
            Value::DisplaySetting(_) => Command::DisplaySetting,
            Value::VideoInput(_) => Command::VideoInput,
            Value::VideoMode(_) => Command::VideoMode,
            Value::PatternSequence(_) => Command::PatternSequence,
            Value::SequenceRun(_) => Command::SequenceRun,
        }
    }
}

// The values that stand in a command's data, where their size is right: what is held of a transfer,
// and after it a packet's payload.
#[tactic(auto, using(crate::proofs::data::Laws::size_layout, crate::proofs::data::Laws::split_places), unfolding(crate::specs::Inner::parsed))]
pub(crate) fn parse(c: Command, held: &[u8], payload: &[u8]) -> Option<Value>
    ensures { result ≡ parsed c (held.now ++ payload.now) }
{
    if held.len() + payload.len() != c.size() {
        return None;
    }
    // With nothing held the data are read where they stand.
    if held.is_empty() {
        return Some(from(c, payload));
    }
    let joined = Data::new().append(held).append(payload);
    Some(from(c, joined.as_slice()))
}

// The values in data of the command's size.
fn from(c: Command, d: &[u8]) -> Value
    requires { length d.now ≡ total (layout c) }
    ensures { result ≡ value_from c (split_from 0 (layout c) d.now) }
{
    match c {
        Command::DisplayMode => Value::DisplayMode(byte_at(d, 0)),
        Command::TestPattern => Value::TestPattern(byte_at(d, 0)),
        Command::LedCurrent => Value::LedCurrent(LedCurrent::read(d)),
        Command::StaticColour => Value::StaticColour(StaticColour::read(d)),
        Command::DisplaySetting => Value::DisplaySetting(DisplaySetting::read(d)),
        Command::VideoInput => Value::VideoInput(VideoInput::read(d)),
        Command::VideoMode => Value::VideoMode(VideoMode::read(d)),
        Command::PatternSequence => Value::PatternSequence(PatternSequence::read(d)),
        Command::SequenceRun => Value::SequenceRun(byte_at(d, 0) as u32),
    }
}

// The data that carry the values.
pub(crate) fn data_of(v: Value) -> Data
    ensures { result ≡ data_in v }
{
    match v {
        Value::DisplayMode(m) => Data::new().byte(m),
        Value::TestPattern(p) => Data::new().byte(p),
        Value::LedCurrent(q) => q.data(),
        Value::StaticColour(q) => q.data(),
        Value::DisplaySetting(q) => q.data(),
        Value::VideoInput(q) => q.data(),
        Value::VideoMode(q) => q.data(),
        Value::PatternSequence(q) => q.data(),
        Value::SequenceRun(r) => Data::new().low(r),
    }
}

// A setting of several fields, which stand one after the other in its command's data.
trait Fields: Sized {
    // How many bytes each field has.
    ghost widths: { List ℕ };

    // The numbers in the fields.
    ghost values: { Self → List ℕ };

    fn read(d: &[u8]) -> Self
        requires { length d.now ≡ total widths }
        ensures { values result ≡ split_from 0 widths d.now };

    fn data(self) -> Data
        ensures { result ≡ join_all widths (values self) };
}

// 01 04: red, green, blue.
impl Fields for LedCurrent {
    ghost widths = { layout command.LedCurrent };

    ghost values = { current_values };

    fn read(d: &[u8]) -> LedCurrent {
        LedCurrent {
            red: Drive(word_at(d, 0)),
            green: Drive(word_at(d, 2)),
            blue: Drive(word_at(d, 4)),
        }
    }

    fn data(self) -> Data {
        Data::new()
            .word(self.red.0)
            .word(self.green.0)
            .word(self.blue.0)
    }
}

// 01 06: blue, green, red, 00.
impl Fields for StaticColour {
    ghost widths = { layout command.StaticColour };

    ghost values = { colour_values };

    fn read(d: &[u8]) -> StaticColour {
        StaticColour {
            blue: byte_at(d, 0),
            green: byte_at(d, 1),
            red: byte_at(d, 2),
            last: byte_at(d, 3),
        }
    }

    fn data(self) -> Data {
        Data::new()
            .byte(self.blue)
            .byte(self.green)
            .byte(self.red)
            .byte(self.last)
    }
}

// 01 07: long flip, short flip, rotate.
impl Fields for DisplaySetting {
    ghost widths = { layout command.DisplaySetting };

    ghost values = { setting_values };

    fn read(d: &[u8]) -> DisplaySetting {
        DisplaySetting {
            long: byte_at(d, 0),
            short: byte_at(d, 1),
            rotate: byte_at(d, 2) as u16,
        }
    }

    fn data(self) -> Data {
        Data::new()
            .byte(self.long)
            .byte(self.short)
            .low(self.rotate as u32)
    }
}

// 02 00: X, Y, first pixel, first line, width, height.
impl Fields for VideoInput {
    ghost widths = { layout command.VideoInput };

    ghost values = { input_values };

    fn read(d: &[u8]) -> VideoInput {
        VideoInput {
            x: word_at(d, 0),
            y: word_at(d, 2),
            pixel: word_at(d, 4),
            line: word_at(d, 6),
            width: word_at(d, 8),
            height: word_at(d, 10),
        }
    }

    fn data(self) -> Data {
        Data::new()
            .word(self.x)
            .word(self.y)
            .word(self.pixel)
            .word(self.line)
            .word(self.width)
            .word(self.height)
    }
}

// 02 01: frame rate, depth, LED.
impl Fields for VideoMode {
    ghost widths = { layout command.VideoMode };

    ghost values = { video_values };

    fn read(d: &[u8]) -> VideoMode {
        VideoMode {
            rate: byte_at(d, 0),
            depth: byte_at(d, 1),
            led: byte_at(d, 2) as u16,
        }
    }

    fn data(self) -> Data {
        Data::new()
            .byte(self.rate)
            .byte(self.depth)
            .low(self.led as u32)
    }
}

// 04 00: depth, count, inversion, trigger, delay, period, exposure, LED.
impl Fields for PatternSequence {
    ghost widths = { layout command.PatternSequence };

    ghost values = { sequence_values };

    fn read(d: &[u8]) -> PatternSequence {
        PatternSequence {
            depth: byte_at(d, 0),
            count: byte_at(d, 1),
            inversion: byte_at(d, 2),
            trigger: byte_at(d, 3),
            delay: Microseconds(long_at(d, 4)),
            period: Microseconds(long_at(d, 8)),
            exposure: Microseconds(long_at(d, 12)),
            led: byte_at(d, 16) as u32,
        }
    }

    fn data(self) -> Data {
        Data::new()
            .byte(self.depth)
            .byte(self.count)
            .byte(self.inversion)
            .byte(self.trigger)
            .long(self.delay.0)
            .long(self.period.0)
            .long(self.exposure.0)
            .low(self.led)
    }
}
