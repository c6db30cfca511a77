// The value checks, laid out like the guide's pages (DLPU007D, sections 3.2 to 3.11): a check for each
// command in the guide's order, with the rows of its table, and below it each row with a case for each value
// or range that it prints. There `1..=8` is from 1 to 8, both included, and `_` every other value. A row that
// prints no values stands as a comment. What document 01 decides, where the guide is silent, says so. Some
// rows of one byte have a wider number here, as the settings have (settings.rt). The check of a command
// answers with the byte that the first row begins with whose value is not allowed; a rule between two rows
// stands at the later one. At the end: what the checks mean for a write and for all settings.
ghost use Rattle.std.specs.Prelude.{◌/◌, ◌%◌, ◌<◌, ◌≡◌, [], ◌∷◌, not, ◌&&◌, ◌||◌, eqb, leb};
ghost use Rattle.command.specs.Rules.{listed, most_patterns, one_of, pairs, within, first_wrong, mode_fields, pattern_fields, current_fields, colour_fields, setting_fields, input_fields, video_fields, sequence_fields, run_fields, allowed as allowed_in, wrong_byte, blocked as blocked_in, settings_in_rule};
ghost use Rattle.command.specs.Value.{command_in, values_in};

use crate::settings::{
    DisplaySetting, Drive, LedCurrent, PATTERN_SEQUENCE_MODE, PatternSequence, Settings,
    StaticColour, VideoInput, VideoMode,
};
use crate::value::Value;

// 3.2 Current Display Mode (01 01), Table 3, Byte 0.
pub(crate) fn display_mode(m: u8) -> Option<u8>
    ensures { result ≡ first_wrong (mode_fields m) }
{
    match m {
        0x00 => None, // Static Image
        0x01 => None, // Internal Test Pattern
        0x02 => None, // HDMI Video Input
        0x03 => Some(0), // Reserved
        0x04 => None, // Pattern Sequence Display
        _ => Some(0),
    }
}

// 3.3 Current Test Pattern (01 03), Table 4, Byte 0.
fn test_pattern(p: u8) -> Option<u8>
    ensures { result ≡ first_wrong (pattern_fields p) }
{
    match p {
        0x00 => None, // 14x8 Checkerboard (default)
        0x01 => None, // Solid black
        0x02 => None, // Solid white
        0x03 => None, // Solid green
        0x04 => None, // Solid blue
        0x05 => None, // Solid red
        0x06 => None, // Vertical lines (1-white, 7-black)
        0x07 => None, // Horizontal lines (1-white, 7-black)
        0x08 => None, // Vertical lines (1-white, 1-black)
        0x09 => None, // Horizontal lines (1-white, 1-black)
        0x0A => None, // Diagonal lines
        0x0B => None, // Vertical Gray Ramps
        0x0C => None, // Horizontal Gray Ramps
        0x0D => None, // ANSI 4×4 Checkerboard
        _ => Some(0),
    }
}

// 3.4 LED Current Setting (01 04), Table 5.
fn led_current(q: LedCurrent) -> Option<u8>
    ensures { result ≡ first_wrong (current_fields q) }
{
    // Byte 0 - Byte 1: Red LED current.
    if !led_drive(q.red) {
        return Some(0);
    }
    // Byte 2 - Byte 3: Green LED current.
    if !led_drive(q.green) {
        return Some(2);
    }
    // Byte 4 - Byte 5: Blue LED current.
    if !led_drive(q.blue) {
        return Some(4);
    }
    None
}

// Each row of Table 5: Range 0 - 1024. Default 274. Of what is printed below the table nothing is checked:
// 0 disables the LED, 0x400 is full current and for short bursts, and 0x112 is the most for continuous
// operation with no active thermal cooling.
fn led_drive(current: Drive) -> bool
    ensures { result ≡ leb current.0 1024 }
{
    match current.0 {
        0..=1024 => true,
        _ => false,
    }
}

// 3.5 is the static image, 01 05, which this build leaves out. Below it and without a number of its own:
// Static Color (01 06), Table 7, Byte 0 - Byte 3: 24 bit Color in 00RRGGBB format.
fn static_colour(q: StaticColour) -> Option<u8>
    ensures { result ≡ first_wrong (colour_fields q) }
{
    // The least significant byte is sent first: BB, GG and RR are Byte 0 to Byte 2, any value, and 00 is
    // Byte 3 (document 01).
    match q.last {
        0x00 => None, // Byte 3
        _ => Some(3),
    }
}

// 3.6 Display Setting (01 07), Table 8.
fn display_setting(q: DisplaySetting) -> Option<u8>
    ensures { result ≡ first_wrong (setting_fields q) }
{
    // Byte 0: Flip image on long axis.
    if !long_axis(q.long) {
        return Some(0);
    }
    // Byte 1: Flip image on short axis.
    if !short_axis(q.short) {
        return Some(1);
    }
    // Byte 2: Rotate image by -90 degrees.
    if !rotation(q.rotate) {
        return Some(2);
    }
    None
}

// Table 8, Byte 0.
fn long_axis(flip: u8) -> bool
    ensures { result ≡ leb flip 1 }
{
    match flip {
        0 => true, // No flip (default)
        1 => true, // Flip on long axis
        _ => false,
    }
}

// Table 8, Byte 1.
fn short_axis(flip: u8) -> bool
    ensures { result ≡ leb flip 1 }
{
    match flip {
        0 => true, // No flip
        1 => true, // Flip on short axis (default)
        _ => false,
    }
}

// Table 8, Byte 2.
fn rotation(rotate: u16) -> bool
    ensures { result ≡ leb rotate 1 }
{
    match rotate {
        0 => true, // No rotation (default)
        1 => true, // Rotate image by -90 degrees
        _ => false,
    }
}

// 3.7 Video Input Setting (02 00), Table 9.
fn video_input(q: VideoInput) -> Option<u8>
    ensures { result ≡ first_wrong (input_fields q) }
{
    // Byte 0 - Byte 1: Input Resolution X. Any value by itself.
    // Byte 2 - Byte 3: Input Resolution Y. It makes a supported resolution with X.
    if !supported(q.x, q.y) {
        return Some(2);
    }
    // Byte 4 - Byte 5: First Active Pixel (Input cropping). Any value (document 01).
    // Byte 6 - Byte 7: First Active Line (Input cropping). Any value (document 01).
    // Byte 8 - Byte 9: Active Width (Input cropping). Any value (document 01).
    // Byte 10 - Byte 11: Active Height (Input cropping). Any value (document 01).
    None
}

// An entry of Table 10, X × Y.
#[derive(Clone, Copy)]
struct Resolution {
    x: u16,
    y: u16,
}

// Table 10. Supported Resolutions for Video Input, line by line as printed.
const SUPPORTED_RESOLUTIONS: [Resolution; 26] = [
    // line 1
    Resolution { x: 240, y: 320 },
    Resolution { x: 640, y: 480 },
    Resolution { x: 480, y: 852 },
    Resolution { x: 864, y: 480 },
    // line 2
    Resolution { x: 320, y: 240 },
    Resolution { x: 480, y: 720 },
    Resolution { x: 852, y: 480 },
    Resolution { x: 720, y: 240 },
    // line 3
    Resolution { x: 240, y: 427 },
    Resolution { x: 720, y: 480 },
    Resolution { x: 480, y: 853 },
    Resolution { x: 720, y: 288 },
    // line 4
    Resolution { x: 427, y: 240 },
    Resolution { x: 480, y: 752 },
    Resolution { x: 853, y: 480 },
    Resolution { x: 360, y: 640 },
    // line 5 (continued)
    Resolution { x: 430, y: 640 },
    Resolution { x: 752, y: 480 },
    // 480×853, again
    Resolution { x: 640, y: 360 },
    // line 6
    Resolution { x: 640, y: 430 },
    Resolution { x: 480, y: 800 },
    Resolution { x: 854, y: 480 },
    // 854×480, again
    // line 7
    Resolution { x: 480, y: 640 },
    Resolution { x: 800, y: 480 },
    Resolution { x: 480, y: 854 },
    Resolution { x: 608, y: 684 },
];

// X and Y in one number, from which both can be had again: one comparison tells two resolutions apart, which
// each call does for the settings (docs/DECISIONS.md has what it costs otherwise).
fn packed(x: u16, y: u16) -> u32
    ensures { (result / 65536 ≡ x) × (result % 65536 ≡ y) }
{
    x as u32 * 65536 + y as u32
}

// X × Y is an entry of Table 10. The factory's stands last, and is tried first. By index, as in packet's bytes.rt.
fn supported(x: u16, y: u16) -> bool
    ensures { result ≡ listed x y pairs }
{
    let wanted = packed(x, y);
    let table = &SUPPORTED_RESOLUTIONS;
    for k in (0..table.len()).rev() {
        let entry = table[k];
        if wanted == packed(entry.x, entry.y) {
            return true;
        }
    }
    false
}

// 3.8 Video Mode Setting (02 01), Table 11.
fn video_mode(q: VideoMode) -> Option<u8>
    ensures { result ≡ first_wrong (video_fields q) }
{
    // Byte 0: Frame Rate 15, 30, 40, 50, or 60 Hz.
    if !frame_rate(q.rate) {
        return Some(0);
    }
    // Byte 1: Bit Depth. Range 1 - 8. (default is 8)
    if !bit_depth(q.depth) {
        return Some(1);
    }
    // Byte 2
    if !video_led(q.led) {
        return Some(2);
    }
    None
}

// Table 11, Byte 0.
fn frame_rate(rate: u8) -> bool
    ensures { result ≡ one_of rate (15 ∷ 30 ∷ 40 ∷ 50 ∷ 60 ∷ []) }
{
    match rate {
        15 => true,
        30 => true,
        40 => true,
        50 => true,
        60 => true, // Default is 60 Hz
        _ => false,
    }
}

// Table 11, Byte 1, and Table 12, Byte 0.
fn bit_depth(depth: u8) -> bool
    ensures { result ≡ within 1 8 depth }
{
    match depth {
        1..=8 => true,
        _ => false,
    }
}

// Table 11, Byte 2.
fn video_led(led: u16) -> bool
    ensures { result ≡ within 1 4 led }
{
    match led {
        1 => true, // RGB: Uses Red, Green, and Blue LEDs for full color (default)
        2 => true, // Monochrome Red LED
        3 => true, // Monochrome Green LED
        4 => true, // Monochrome Blue LED
        _ => false,
    }
}

// 3.9 Pattern Sequence Setting (04 00), Table 12.
fn pattern_sequence(q: PatternSequence) -> Option<u8>
    ensures { result ≡ first_wrong (sequence_fields q) }
{
    // Byte 0: Pattern bit depth (1 - 8), as Byte 1 of Table 11.
    if !bit_depth(q.depth) {
        return Some(0);
    }
    // Byte 1: Number of patterns in the sequence (1 - 96), and no more than 3.10 numbers.
    if !pattern_count(q.depth, q.count) {
        return Some(1);
    }
    // Byte 2: Include inverted patterns (only applicable for 1 bit patterns).
    if !inversion(q.depth, q.inversion) {
        return Some(2);
    }
    // Byte 3: Input trigger type.
    if !trigger_type(q.depth, q.trigger) {
        return Some(3);
    }
    // Byte 4 - Byte 7: Input Trigger Delay in micro seconds. Any value (document 01).
    // Byte 8 - Byte 11: Trigger Period in micro second (only for Auto Trigger mode). Any value, with
    // every trigger (document 01).
    // Byte 12 - Byte 15: Exposure Time in micro seconds. Any value (document 01).
    // Byte 16: LED Select.
    if !led_select(q.led) {
        return Some(16);
    }
    None
}

// Table 12, Byte 1.
fn pattern_count(depth: u8, count: u8) -> bool
    ensures { 0 < depth → result ≡ within 1 (most_patterns depth) count }
{
    match count {
        1..=96 => count_in_limit(depth, count),
        _ => false,
    }
}

// Table 12, Byte 2. At another depth 1 and 2 are refused (document 01).
fn inversion(depth: u8, inverted: u8) -> bool
    ensures { result ≡ (leb inverted 2 && (eqb inverted 0 || eqb depth 1)) }
{
    match inverted {
        // Every pattern is displayed
        0 => true,
        // Each pattern is displayed and followed by its inverted pattern before the next pattern is displayed
        1 => depth == 1,
        // Use Internally Generated 1 bpp Patterns. Refer to command (0x04 0x06) for more details
        2 => depth == 1,
        _ => false,
    }
}

// Table 12, Byte 3.
fn trigger_type(depth: u8, kind: u8) -> bool
    ensures { result ≡ (leb kind 6 && (not (eqb kind 6) || eqb depth 1)) }
{
    match kind {
        0 => true, // Command Trigger (Through Current Pattern Command)
        1 => true, // Auto Trigger
        2 => true, // External Trigger (Positive Polarity)
        3 => true, // External Trigger (Negative Polarity)
        4 => true, // Camera Trigger (Positive Polarity)
        5 => true, // Camera Trigger (Negative Polarity)
        6 => depth == 1, // External Trigger + Exposure (only for 1-bit depth mode)
        _ => false,
    }
}

// Table 12, Byte 16.
fn led_select(led: u32) -> bool
    ensures { result ≡ leb led 2 }
{
    match led {
        0 => true, // Red
        1 => true, // Green
        2 => true, // Blue
        _ => false,
    }
}

// 3.10 Pattern Definition (04 01), Table 13, Byte 0: Pattern Number (0 - 95/BitsPerPattern). The command is
// not in this build; its numbers limit how many patterns a sequence has: 1 plus the whole part of 95/depth.
// Tested by a product: not every processor can divide, and damaged memory may have a depth of 0, which its
// own row refuses.
fn count_in_limit(depth: u8, count: u8) -> bool
    ensures { 0 < depth → result ≡ leb count (most_patterns depth) }
{
    let bits = depth as u32;
    count as u32 * bits <= 95 + bits
}

// 3.11 Start Pattern Sequence (04 02), Table 16, Byte 0.
fn sequence_run(r: u32) -> Option<u8>
    ensures { result ≡ first_wrong (run_fields r) }
{
    match r {
        0 => None, // Stop Pattern Sequence
        1 => None, // Start Pattern Sequence
        _ => Some(0),
    }
}

// Which byte of a write is wrong.
pub(crate) fn wrong_byte(v: Value) -> Option<u8>
    ensures { result ≡ wrong_byte (command_in v) (values_in v) }
{
    match v {
        Value::DisplayMode(m) => display_mode(m),
        Value::TestPattern(p) => test_pattern(p),
        Value::LedCurrent(q) => led_current(q),
        Value::StaticColour(q) => static_colour(q),
        Value::DisplaySetting(q) => display_setting(q),
        Value::VideoInput(q) => video_input(q),
        Value::VideoMode(q) => video_mode(q),
        Value::PatternSequence(q) => pattern_sequence(q),
        Value::SequenceRun(r) => sequence_run(r),
    }
}

// The values of a write are allowed.
pub(crate) fn allowed(v: Value) -> bool
    ensures { result ≡ allowed_in (command_in v) (values_in v) }
{
    wrong_byte(v).is_none()
}

// Run 1 outside display mode 4 (document 01; the guide has no such rule).
#[tactic(auto, unfolding(crate::specs::Rules::blocked))]
pub(crate) fn blocked(v: Value, mode: u8) -> bool
    ensures { result ≡ blocked_in (command_in v) (values_in v) mode }
{
    match v {
        Value::SequenceRun(r) => r == 1 && mode != PATTERN_SEQUENCE_MODE,
        _ => false, // no other command needs a mode
    }
}

// Every setting is allowed, and run is not 1 outside mode 4. The video input comes last: the compiler
// inlines the other checks and calls this one, and what is looked at after a call has to be saved across it.
pub(crate) fn settings_in_rule(s: Settings) -> bool
    ensures { result ≡ settings_in_rule s }
{
    display_mode(s.mode).is_none()
        && test_pattern(s.pattern).is_none()
        && led_current(s.current).is_none()
        && static_colour(s.colour).is_none()
        && display_setting(s.setting).is_none()
        && video_mode(s.video).is_none()
        && pattern_sequence(s.sequence).is_none()
        && sequence_run(s.run).is_none()
        && !blocked(Value::SequenceRun(s.run), s.mode)
        && video_input(s.input).is_none()
}
