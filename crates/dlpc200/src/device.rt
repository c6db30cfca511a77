// The device: what has come in of the current packet, and the states. Firmware lends it, so it is
// made of numbers alone and means something whatever they are.
ghost use Rattle.std.specs.Prelude.{◌≡◌};

use crate::header::{AFTER_CMD4, HOLD};
use crate::states::States;
use packet::{HEADER, Taken};

// Each field is as wide as the room up to the next one: a record that is lent has no holes.
#[repr(C)]
#[derive(Clone, Copy)]
pub struct Device {
    // How many bytes of the current packet have come in. Between two packets it is 0, and header and
    // hold are those of the last packet.
    pub received: u32,
    // CMD1, CMD2, CMD3, CMD4, Len_LSB, Len_MSB.
    pub header: [u8; HEADER],
    // The first data bytes: the command's ID, and room for a parameter, which no command here has.
    pub hold: [u8; HOLD],
    // The sum of the bytes received of the current packet after CMD4, modulo 256. It begins anew
    // with the first of them, whatever stood here.
    pub sum: u8,
    pub states: States,
}

impl Device {
    ghost use Rattle.dlpc200.specs.Device.{device_with, in_rule, receiving};
    ghost use Rattle.dlpc200.specs.Inner.{received_by};

    // A device between two packets, with the states that the host supplies.
    pub fn with(states: States) -> Device
        ensures { result ≡ device_with states }
    {
        Device {
            received: 0,
            header: [0; HEADER],
            hold: [0; HOLD],
            sum: 0,
            states,
        }
    }

    // What refusal 3 lets pass.
    pub(crate) fn in_rule(&self) -> bool
        ensures { result ≡ in_rule self.now }
    {
        self.states.in_range() && packet::packet_in_rule(self.header, self.received as usize)
    }

    // Takes bytes until the input ends or one packet is complete, as the packet layer does. Data
    // bytes behind the hold find no room: they are counted, summed and dropped.
    pub(crate) fn take(&mut self, input: &[u8]) -> Taken
        ensures { (received_by result self.new ≡ receiving self.old input.now) × (self.new.states ≡ self.old.states) }
    {
        let taken = packet::receive(
            &mut self.header,
            self.sum,
            self.received as usize,
            &mut self.hold,
            AFTER_CMD4,
            input,
        );
        self.sum = taken.sum;
        self.received = taken.received as u32;
        taken
    }
}
