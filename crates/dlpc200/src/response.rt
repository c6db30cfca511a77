// Writing a response to a lent buffer. It carries AA, 00, 00 as CMD2 to CMD4, whatever came.
ghost use Rattle.std.specs.Prelude.{◌≡◌, ◌+◌, ◌<◌, ◌≤◌, length};
ghost use Rattle.dlpc200.specs.Packet.{packet_of};
ghost use Rattle.dlpc200.specs.Response.{response_type, response_data};
ghost use Rattle.packet.specs.Writer.{written};

use crate::header::{EXTENDED, ONLY, READ, READ_RESP, WRITE_RESP};
use crate::states::States;
use crate::status::Faults;
use crate::table::Command;
use packet::{FRAME, HEADER};

// The response of this CMD1 with these data. Its checksum is of everything after CMD4, where the
// packet layer's writer sums every byte.
fn put_response(out: &mut [u8], cmd1: u8, payload: &[u8]) -> usize
    requires few { length payload.now < 256 }
    requires room { length payload.now + 7 ≤ length out.old }
    ensures { (result ≡ length (packet_of cmd1 payload.now)) × (out.new ≡ written (packet_of cmd1 payload.now) out.old) }
{
    let n = payload.len() as u8;
    // From the length on, where packet's sum begins with the type: a loop each, by index as there.
    let mut sum = n;
    for i in 0..payload.len() {
        sum = sum.wrapping_add(payload[i]);
    }
    packet::store(out, 0, &[cmd1, EXTENDED, 0x00, ONLY, n, 0x00]);
    packet::store(out, HEADER, payload);
    out[HEADER + payload.len()] = sum;
    FRAME + payload.len()
}

// A read response for CMD1 04, and a write response otherwise.
fn response_type(cmd1: u8) -> u8
    ensures { result ≡ response_type cmd1 }
{
    if cmd1 == READ { READ_RESP } else { WRITE_RESP }
}

// The response to a packet that was judged so, with these states before it.
pub(crate) fn respond(
    out: &mut [u8],
    cmd1: u8,
    states: States,
    judged: Result<Command, Faults>,
) -> usize
    requires { 10 ≤ length out.old }
    ensures { (result ≡ length (packet_of (response_type cmd1) (response_data states judged)))
        × (out.new ≡ written (packet_of (response_type cmd1) (response_data states judged)) out.old) }
{
    let kind = response_type(cmd1);
    match judged {
        Err(faults) => put_response(out, kind, &[faults.data0(), faults.data1()]),
        Ok(command) => match states.shown(command) {
            Some(state) => put_response(out, kind, &[0x00, 0x00, state]),
            None => put_response(out, kind, &[0x00, 0x00]),
        },
    }
}
