// The calls of the crate dlpc200 for C and Rust, under their names: each export calls the library's function
// and has its promise.
#![tactic(auto)]

ghost use Rattle.std.specs.Prelude.{◌≡◌};
ghost use Rattle.dlpc200.specs.Device.{device_with};
ghost use Rattle.dlpc200.specs.Endpoint.{receive_call, Receives};
ghost use Rattle.dlpc200.specs.Status.{fault_bits};

use dlpc200::{Device, States};

// A device between two packets, with the states that the host supplies.
#[unsafe(no_mangle)]
pub extern "C" fn dlpc200_reset(device: &mut Device, states: &States) -> u32
    ensures { (result ≡ 0) × (device.new ≡ device_with states.now) }
{
    dlpc200::dlpc200_reset(device, states)
}

// Takes bytes until the input ends or one packet is complete.
#[unsafe(no_mangle)]
pub extern "C" fn dlpc200_receive(
    device: &mut Device,
    input: &[u8],
    out: &mut [u8],
    taken: &mut u64,
    size: &mut u64,
) -> u32
    ensures { Receives (receive_call device.old input.now out.old)
        result taken.new size.new device.new out.new }
{
    dlpc200::dlpc200_receive(device, input, out, taken, size)
}

// How many faults a response carries beside bit 6, by its Data[0] and Data[1].
#[unsafe(no_mangle)]
pub extern "C" fn dlpc200_faults(data0: u8, data1: u8) -> u32
    ensures { result ≡ fault_bits data0 data1 }
{
    dlpc200::dlpc200_faults(data0, data1)
}
