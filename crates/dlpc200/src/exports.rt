// The calls for C and Rust. Neither an enum nor a record by value crosses: a record is lent, and an
// answer is told as numbers.
ghost use Rattle.std.specs.Prelude.{◌≡◌};
ghost use Rattle.dlpc200.specs.Device.{device_with};
ghost use Rattle.dlpc200.specs.Endpoint.{receive_call, Receives};
ghost use Rattle.dlpc200.specs.Status.{fault_bits};

use crate::device::Device;
use crate::states::States;

// A device between two packets, with the states that the host supplies.
pub fn dlpc200_reset(device: &mut Device, states: &States) -> u32
    ensures { (result ≡ 0) × (device.new ≡ device_with states.now) }
{
    *device = Device::with(*states);
    0
}

// Takes bytes until the input ends or one packet is complete.
pub fn dlpc200_receive(
    device: &mut Device,
    input: &[u8],
    out: &mut [u8],
    taken: &mut u64,
    size: &mut u64,
) -> u32
    ensures { Receives (receive_call device.old input.now out.old)
        result taken.new size.new device.new out.new }
{
    packet::told(device.receive(input, out), taken, size)
}

// How many faults a response carries beside bit 6, by its Data[0] and Data[1].
pub fn dlpc200_faults(data0: u8, data1: u8) -> u32
    ensures { result ≡ fault_bits data0 data1 }
{
    crate::status::fault_count(data0, data1)
}
