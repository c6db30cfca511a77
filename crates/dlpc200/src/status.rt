// The faults that a packet can have, and the two status bytes that tell them.
ghost use Rattle.std.specs.Prelude.{◌≡◌, ◌≤◌};
ghost use Rattle.dlpc200.specs.Status.{any_fault, bit, data0, data1, fault_bits};

// The error bits of Data[0].
const CHECKSUM_ERROR: u8 = 0x01;

const INVALID_CMD1: u8 = 0x02;

const INVALID_CMD2: u8 = 0x04;

const INVALID_CMD4: u8 = 0x10;

const PROCESSING_FAILED: u8 = 0x40;

// The error bit of Data[1].
const WRONG_DATA_SIZE: u8 = 0x08;

// Every fault that holds of a packet. With none of them a packet failed because its command is
// unknown.
#[derive(Clone, Copy, Default)]
pub(crate) struct Faults {
    pub checksum: bool,
    pub cmd1: bool,
    pub cmd2: bool,
    pub cmd4: bool,
    pub size: bool,
}

impl Faults {
    // One of them holds, or several.
    pub(crate) fn any(self) -> bool
        ensures { result ≡ any_fault self }
    {
        self.checksum || self.cmd1 || self.cmd2 || self.cmd4 || self.size
    }

    // Data[0] of a packet that failed with these: a bit for each fault, and bit 6.
    pub(crate) fn data0(self) -> u8
        ensures { result ≡ data0 self }
    {
        flag(self.checksum, CHECKSUM_ERROR)
            + flag(self.cmd1, INVALID_CMD1)
            + flag(self.cmd2, INVALID_CMD2)
            + flag(self.cmd4, INVALID_CMD4)
            + PROCESSING_FAILED
    }

    // Data[1] of such a packet.
    pub(crate) fn data1(self) -> u8
        ensures { result ≡ data1 self }
    {
        flag(self.size, WRONG_DATA_SIZE)
    }
}

// An error bit, where its fault holds.
fn flag(holds: bool, value: u8) -> u8
    ensures { (result ≡ bit holds value) × (result ≤ value) }
{
    if holds { value } else { 0 }
}

// How many faults a response carries beside bit 6 of Data[0].
#[tactic(auto, unfolding(crate::specs::Status::fault_bits))]
pub fn fault_count(data0: u8, data1: u8) -> u32
    ensures { result ≡ fault_bits data0 data1 }
{
    (data0 & !PROCESSING_FAILED).count_ones() + data1.count_ones()
}
