// A case, which is read from its first byte to its last, and the settings in it, which are laid out alike
// in every kind: a number of four bytes, least significant first, for each of the 30 fields in layout order.
// A field of the library may be wider than its data on the wire, so this says more than the commands' data
// could. Where the bytes of a case end, zeros are read.
ghost use Rattle.std.specs.Prelude.{◌≤◌, length};

use command::{
    DisplaySetting, Drive, LedCurrent, Microseconds, PatternSequence, Settings, StaticColour,
    VideoInput, VideoMode,
};

// The bytes of the settings.
pub const SETTINGS: usize = 120;

// A field of the settings. What stands above its own width is not looked at.
#[derive(Clone, Copy)]
struct Field([u8; 4]);

impl From<Field> for u8 {
    fn from(field: Field) -> u8 {
        field.0[0]
    }
}

impl From<Field> for u16 {
    fn from(field: Field) -> u16 {
        u16::from_le_bytes([field.0[0], field.0[1]])
    }
}

impl From<Field> for u32 {
    fn from(field: Field) -> u32 {
        u32::from_le_bytes(field.0)
    }
}

// The bytes of a case that are not read yet.
#[derive(Drop)]
pub struct Case<'a> {
    rest: &'a [u8],
}

impl<'a> Case<'a> {
    pub fn new(bytes: &'a [u8]) -> Case<'a> {
        Case { rest: bytes }
    }

    // How many are left.
    pub fn left(&self) -> usize {
        self.rest.len()
    }

    // The next n bytes, or as many as are left.
    pub fn bytes(&mut self, n: usize) -> &'a [u8]
        ensures { length result.now ≤ n }
    {
        let (bytes, rest) = self.rest.split_at(n.min(self.rest.len()));
        self.rest = rest;
        bytes
    }

    // The same, but no more than an array has room for, at the array's start.
    pub fn array<const N: usize>(&mut self, n: usize) -> [u8; N] {
        let mut array = [0; N];
        let bytes = self.bytes(n.min(N));
        array[..bytes.len()].copy_from_slice(bytes);
        array
    }

    pub fn byte(&mut self) -> u8 {
        let [byte]: [u8; 1] = self.array(1);
        byte
    }

    pub fn word(&mut self) -> u16 {
        u16::from_le_bytes(self.array(2))
    }

    pub fn long(&mut self) -> u32 {
        u32::from_le_bytes(self.array(4))
    }

    fn field<T: From<Field>>(&mut self) -> T {
        T::from(Field(self.array(4)))
    }

    fn current(&mut self) -> LedCurrent {
        LedCurrent {
            red: Drive(self.field()),
            green: Drive(self.field()),
            blue: Drive(self.field()),
        }
    }

    fn colour(&mut self) -> StaticColour {
        StaticColour {
            blue: self.field(),
            green: self.field(),
            red: self.field(),
            last: self.field(),
        }
    }

    fn setting(&mut self) -> DisplaySetting {
        DisplaySetting {
            long: self.field(),
            short: self.field(),
            rotate: self.field(),
        }
    }

    fn input(&mut self) -> VideoInput {
        VideoInput {
            x: self.field(),
            y: self.field(),
            pixel: self.field(),
            line: self.field(),
            width: self.field(),
            height: self.field(),
        }
    }

    fn video(&mut self) -> VideoMode {
        VideoMode {
            rate: self.field(),
            depth: self.field(),
            led: self.field(),
        }
    }

    fn sequence(&mut self) -> PatternSequence {
        PatternSequence {
            depth: self.field(),
            count: self.field(),
            inversion: self.field(),
            trigger: self.field(),
            delay: Microseconds(self.field()),
            period: Microseconds(self.field()),
            exposure: Microseconds(self.field()),
            led: self.field(),
        }
    }

    pub fn settings(&mut self) -> Settings {
        Settings {
            mode: self.field(),
            pattern: self.field(),
            current: self.current(),
            colour: self.colour(),
            setting: self.setting(),
            input: self.input(),
            video: self.video(),
            sequence: self.sequence(),
            run: self.field(),
        }
    }
}
