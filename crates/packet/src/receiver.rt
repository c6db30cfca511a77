// The receiver: takes bytes from a stream until one packet is complete.
ghost use Rattle.std.specs.Prelude.{◌≡◌, ◌-◌, ◌≤◌, max, drop};
ghost use Rattle.std.proofs.lemmas.List.Edits.{sets};
ghost use Rattle.packet.specs.Receiver.{running_with, receiver_of, received_of, receiving, packet_in_rule};

use crate::bytes::{store, sum_with};
use crate::number::word;
use crate::packet::{FRAME, HEADER};

// The first place that document 01's checksum covers: it is the sum of every earlier byte.
pub const CHECKSUM_FROM: usize = 0;

// What one call took, and the sum and the count of the current packet from now on.
#[derive(Clone, Copy)]
pub struct Taken {
    pub taken: usize,
    // Whether the checksum was right, once a packet is complete.
    pub complete: Option<bool>,
    pub sum: u8,
    pub received: usize,
}

// The running sum with the bytes b, `received` bytes of the packet having come before them. It
// covers the bytes from place `first` on and begins anew with the first of them.
fn running_sum(first: usize, received: usize, sum: u8, b: &[u8]) -> u8
    ensures { result ≡ running_with first received sum b.now }
{
    let skip = first.saturating_sub(received);
    if b.len() <= skip {
        return sum;
    }
    if received <= first {
        return sum_with(0, &b[skip..]);
    }
    sum_with(sum, b)
}

// Stores the payload among the bytes b; `received` bytes of the packet came before b.
fn keep(hold: &mut [u8], received: usize, b: &[u8])
    ensures { hold.new ≡ sets hold.old (received - 6) (drop (6 - received) b.now) }
{
    let skip = HEADER.saturating_sub(received).min(b.len());
    store(hold, received.saturating_sub(HEADER), &b[skip..]);
}

// Takes bytes until the input ends or one packet is complete, on the parts of a receiver. The
// checksum covers the packet's bytes from place `first` on. Payload bytes that find no room in the
// hold are counted, summed and dropped. No packet has more than 65,541 bytes before its last, so
// that the count never grows past that. The parts come one by one, since each endpoint has them among
// the fields of its own record, whose layout C knows.
pub fn receive(
    header: &mut [u8; HEADER],
    sum: u8,
    received: usize,
    hold: &mut [u8],
    first: usize,
    input: &[u8],
) -> Taken
    ensures { (received_of result header.new hold.new ≡ receiving first (receiver_of header.old sum received hold.old) input.now)
        × (result.received ≤ max received 65541) }
{
    store(header, received, input);
    // How many bytes come before the checksum, and how many of these the input has. The header may
    // not be complete yet: then the input ends before the checksum, whatever length it tells.
    let before = (HEADER + word(header[4], header[5])).saturating_sub(received);
    let n = before.min(input.len());
    let b = &input[..n];
    let total = running_sum(first, received, sum, b);
    keep(hold, received, b);
    if before < input.len() {
        return Taken {
            taken: before + 1,
            complete: Some(input[before] == total),
            sum: 0,
            received: 0,
        };
    }
    Taken {
        taken: n,
        complete: None,
        sum: total,
        received: received + n,
    }
}

// The current packet has not all its bytes.
pub fn packet_in_rule(header: [u8; HEADER], received: usize) -> bool
    ensures { result ≡ packet_in_rule header received }
{
    received < FRAME + word(header[4], header[5])
}
