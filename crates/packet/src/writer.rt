// The writer: a packet written to a lent buffer.
ghost use Rattle.std.specs.Prelude.{◌≡◌, ◌+◌, ◌<◌, ◌≤◌, length, take, slice_set};
ghost use Rattle.std.proofs.lemmas.List.Edits.{sets};
ghost use Rattle.packet.specs.Packet.{header, checksum};
ghost use Rattle.packet.specs.Writer.{answer_to, output_after};

use crate::bytes::{store, sum_with};
use crate::packet::{FRAME, HEADER, PAYLOAD_MAX};

// What a packet tells before its payload's length: its type, its command's bytes and its flags.
#[derive(Clone, Copy)]
pub struct Head {
    pub kind: u8,
    pub cmd1: u8,
    pub cmd2: u8,
    pub flags: u8,
}

// The header, the payload having n bytes.
fn put_header(out: &mut [u8], h: Head, n: usize)
    requires { 6 ≤ length out.old }
    ensures { out.new ≡ sets out.old 0 (header h.kind h.cmd1 h.cmd2 h.flags n) }
{
    let [low, high, ..] = n.to_le_bytes();
    out[0] = h.kind;
    out[1] = h.cmd1;
    out[2] = h.cmd2;
    out[3] = h.flags;
    out[4] = low;
    out[5] = high;
}

// Puts the checksum of the first n bytes after them.
fn seal(out: &mut [u8], n: usize)
    requires { n < length out.old }
    ensures { out.new ≡ slice_set out.old n (checksum (take n out.old)) }
{
    let sum = sum_with(0, &out[..n]);
    out[n] = sum;
}

// Writes the packet of this head and payload to the start of out, and says how many bytes it has. The
// rest of out stays; all of it where the packet does not go into out, or the payload into a packet.
pub fn write_packet(out: &mut [u8], h: Head, payload: &[u8]) -> Option<usize>
    ensures { (result ≡ answer_to (length out.old) payload.now)
        × (out.new ≡ output_after h.kind h.cmd1 h.cmd2 h.flags payload.now out.old) }
{
    let n = payload.len();
    if PAYLOAD_MAX < n {
        return None;
    }
    if out.len() < n + FRAME {
        return None;
    }
    put_header(out, h, n);
    store(out, HEADER, payload);
    seal(out, n + HEADER);
    Some(n + FRAME)
}
