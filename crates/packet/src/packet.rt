// The packet: its sizes, types and flags.

// The bytes before the payload: type, CMD1, CMD2, flags, and the payload's length in two.
pub const HEADER: usize = 6;

// The bytes around the payload: the header, and the checksum.
pub const FRAME: usize = HEADER + 1;

// The longest payload that the length field can tell.
pub(crate) const PAYLOAD_MAX: usize = 65535;

// Types and flags are numbers and no enums: a packet comes with any byte there, and the faults compare it
// with these.

// Types of the packets that the head sends.
pub const ERROR: u8 = 0x01;

pub const WRITE_RESPONSE: u8 = 0x03;

pub const READ_RESPONSE: u8 = 0x05;

// Types of the packets that the host sends.
pub const HOST_WRITE: u8 = 0x02;

pub const HOST_READ: u8 = 0x04;

// Flags: the packet is whole, or one part of a transfer.
pub const WHOLE: u8 = 0x00;

pub const BEGINNING: u8 = 0x01;

pub const INTERMEDIATE: u8 = 0x02;

pub const LAST: u8 = 0x03;
