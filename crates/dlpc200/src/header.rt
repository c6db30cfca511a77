// The layout of a packet and the values of CMD1, CMD2 and CMD4 (section 6).

// The first place that the checksum covers: it is of everything after CMD4.
pub(crate) const AFTER_CMD4: usize = 4;

// The data of a packet: its ID, Data[0] and Data[1], and nothing else for the commands here.
pub(crate) const ID_SIZE: usize = 2;

// How many data bytes are held: the ID, and two more, so that a device that is lent has no holes.
pub(crate) const HOLD: usize = 4;

pub(crate) const DATA_LIMIT: usize = 504;

// CMD1 of what the host sends. A packet may come with any byte there, which is compared with these:
// an enum would be no plainer.
pub(crate) const WRITE: u8 = 0x02;

pub(crate) const READ: u8 = 0x04;

// CMD1 of what the DLPC200 sends.
pub(crate) const WRITE_RESP: u8 = 0x03;

pub(crate) const READ_RESP: u8 = 0x05;

// CMD2 of every extended packet.
pub(crate) const EXTENDED: u8 = 0xAA;

// CMD4 of the only packet of a transfer.
pub(crate) const ONLY: u8 = 0x00;
