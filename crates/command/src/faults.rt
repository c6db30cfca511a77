// The error codes, and the first group of faults: 02, 04, 09 and 0B, which are reported together.
ghost use Rattle.std.specs.Prelude.{◌≡◌, true, cond, Some, ◌≤◌, ◌<◌, ◌^◌, ◌/◌, ◌%◌, eqb};
ghost use Rattle.packet.specs.Packet.{type_of, flags_of, payload_length};
ghost use Rattle.command.specs.Inner.{is_open_in, open_for_in, faults_of, any_code};
ghost use Rattle.command.specs.Controller.{held_in, transfer_in_rule};
ghost use Rattle.command.specs.Faults.{wrong_command, too_long, wrong_order, any_fault, value_fault};
ghost use Rattle.command.specs.Ruling.{mask_of, codes_told};

use crate::table::Command;
use crate::transfer::{HOLD, TransferState};
use packet::HEADER;

// The bit of a code, where it is set.
fn bit(set: bool, code: u16) -> u16
    requires { code < 12 }
    ensures { (result ≡ cond set (2 ^ code) 0) × (result ≤ 2 ^ code) }
{
    if set { 1 << code } else { 0 }
}

// The bit of a code is set.
fn has_bit(mask: u16, code: u16) -> bool
    requires { code < 12 }
    ensures { result ≡ eqb (mask / 2 ^ code % 2) 1 }
{
    (mask >> code) % 2 == 1
}

// The error codes, by the names that the command guide gives them: which of them hold; and with 03 the byte
// that is wrong, which is reported beside the codes. No packet draws 01, 05, 06 or 08 in this build; a
// judgement that is handed in may have them.
#[derive(Clone, Copy)]
pub(crate) struct Codes {
    // 01
    pub failure: bool,
    // 02
    pub command: bool,
    // 03. A flag beside `wrong`, since the codes of a judgement that is handed in have it with no byte.
    pub parameter: bool,
    // 04
    pub memory: bool,
    // 05
    pub device: bool,
    // 06
    pub busy: bool,
    // 07
    pub precondition: bool,
    // 08
    pub object: bool,
    // 09
    pub checksum: bool,
    // 0A
    pub format: bool,
    // 0B
    pub continuation: bool,
    pub wrong: Option<u8>,
}

impl Codes {
    // No code.
    pub(crate) const NONE: Codes = Codes {
        failure: false,
        command: false,
        parameter: false,
        memory: false,
        device: false,
        busy: false,
        precondition: false,
        object: false,
        checksum: false,
        format: false,
        continuation: false,
        wrong: None,
    };

    // 0A alone.
    pub(crate) const SIZE: Codes = Codes {
        format: true,
        ..Codes::NONE
    };

    // 07 alone.
    pub(crate) const MODE: Codes = Codes {
        precondition: true,
        ..Codes::NONE
    };

    // 03 alone, and the byte that it is about.
    pub(crate) fn value(byte: u8) -> Codes
        ensures { result ≡ value_fault (Some byte) }
    {
        Codes {
            parameter: true,
            wrong: Some(byte),
            ..Codes::NONE
        }
    }

    // The codes as one number: bit n is code n.
    #[tactic(auto, unfolding(crate::specs::Ruling::mask_of))]
    pub(crate) fn mask(self) -> u16
        ensures { result ≡ mask_of self }
    {
        bit(self.failure, 0x01)
            + bit(self.command, 0x02)
            + bit(self.parameter, 0x03)
            + bit(self.memory, 0x04)
            + bit(self.device, 0x05)
            + bit(self.busy, 0x06)
            + bit(self.precondition, 0x07)
            + bit(self.object, 0x08)
            + bit(self.checksum, 0x09)
            + bit(self.format, 0x0A)
            + bit(self.continuation, 0x0B)
    }

    // The codes that such a number says.
    #[tactic(auto, unfolding(crate::specs::Ruling::codes_told))]
    pub(crate) fn told(mask: u16) -> Codes
        ensures { result ≡ codes_told mask }
    {
        Codes {
            failure: has_bit(mask, 0x01),
            command: has_bit(mask, 0x02),
            parameter: has_bit(mask, 0x03),
            memory: has_bit(mask, 0x04),
            device: has_bit(mask, 0x05),
            busy: has_bit(mask, 0x06),
            precondition: has_bit(mask, 0x07),
            object: has_bit(mask, 0x08),
            checksum: has_bit(mask, 0x09),
            format: has_bit(mask, 0x0A),
            continuation: has_bit(mask, 0x0B),
            wrong: None,
        }
    }

    // One of them holds.
    pub(crate) fn any(self) -> bool
        ensures { result ≡ any_code self }
    {
        self.failure
            || self.command
            || self.parameter
            || self.memory
            || self.device
            || self.busy
            || self.precondition
            || self.object
            || self.checksum
            || self.format
            || self.continuation
    }

    // A fault of the first group holds.
    #[tactic(auto, unfolding(crate::specs::Faults::any_fault))]
    pub(crate) fn first_group(self) -> bool
        ensures { result ≡ any_fault self }
    {
        self.command || self.memory || self.checksum || self.continuation
    }
}

// 02: the type is neither write nor read, the command is not in the table, or it cannot be read.
#[tactic(auto, unfolding(crate::specs::Faults::wrong_command))]
fn wrong_command(found: Option<Command>, kind: u8) -> bool
    ensures { result ≡ wrong_command found kind }
{
    let Some(c) = found else {
        return true;
    };
    match kind {
        packet::HOST_WRITE => false,
        packet::HOST_READ => !c.readable(),
        _ => true,
    }
}

// 04: the payload alone, or with the bytes that are held, is more than the hold has room for.
#[tactic(auto, unfolding(crate::specs::Faults::too_long))]
fn too_long(active: bool, held: usize, flags: u8, size: usize) -> bool
    requires { (held ≤ 1024) × (size < 65536) }
    ensures { result ≡ too_long active held flags size }
{
    HOLD < size
        || ((flags == packet::INTERMEDIATE || flags == packet::LAST)
            && active
            && HOLD < held + size)
}

// 0B: the flags do not go with the type or with the open transfer.
#[tactic(auto, unfolding(crate::specs::Faults::wrong_order))]
fn wrong_order(active: bool, ours: bool, kind: u8, flags: u8) -> bool
    ensures { result ≡ wrong_order active ours kind flags }
{
    packet::LAST < flags
        || (kind != packet::HOST_WRITE && flags != packet::WHOLE)
        || ((flags == packet::INTERMEDIATE || flags == packet::LAST) && !ours)
        || ((flags == packet::WHOLE || flags == packet::BEGINNING) && active)
}

// A transfer is open for this command.
pub(crate) fn open_for(found: Option<Command>, t: TransferState) -> bool
    ensures { result ≡ open_for_in found t }
{
    let Some(c) = found else {
        return false;
    };
    let code = c.code();
    t.is_open() && t.cmd1 == code.cmd1 && t.cmd2 == code.cmd2
}

// The first group of faults, every one that holds.
pub(crate) fn faults(
    found: Option<Command>,
    t: TransferState,
    header: [u8; HEADER],
    right: bool,
) -> Codes
    requires { transfer_in_rule t ≡ true }
    ensures { result ≡ faults_of found (is_open_in t) (open_for_in found t) (held_in t) (type_of header) (flags_of header) (payload_length header) right }
{
    let kind = header[0];
    let flags = header[3];
    let size = packet::word(header[4], header[5]);
    let active = t.is_open();
    let ours = open_for(found, t);
    let held = t.held();
    Codes {
        command: wrong_command(found, kind),
        memory: too_long(active, held, flags, size),
        checksum: !right,
        continuation: wrong_order(active, ours, kind, flags),
        ..Codes::NONE
    }
}
