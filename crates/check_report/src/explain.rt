// Refusal 18 in words, on standard error: which packet of the shipping record it is about, and what that
// packet draws from the head. What is proved is that this is safe and ends, and where the shipping packets
// stand; no contract is about the words.
ghost use Rattle.std.specs.Prelude.{◌≡◌, ◌≤◌, ◌+◌, IfSome, length, take, drop};

use command::{Controller, OUTPUT};
use packet::{FRAME, Progress};
use report::{HEADER, SHIPPING};

// The shipping packets, and their place in the report.
#[derive(Clone, Copy)]
struct Shipping<'a> {
    place: usize,
    packets: &'a [u8],
}

// A packet of the shipping record: its number, counted from 1, the bytes from its first on, and the head as
// it finds it.
#[derive(Clone, Copy)]
struct Reached<'a> {
    number: usize,
    bytes: &'a [u8],
    head: Controller,
}

// What a packet draws that refusal 18 can be about.
#[derive(Clone, Copy)]
enum Drawn {
    // An error packet, and the byte that its code 03 is about.
    Error(Option<u8>),
    // A read response.
    Read,
    // A write response, and the packet has opened a transfer.
    Opened,
    // No response: the shipping bytes end before the packet does.
    Unfinished,
}

// That it cannot be written is no reason to stop. (vectors has the same over `Print`.)
fn text(rt: &impl Eprint, words: &str) {
    let _ = rt.eprint(words);
}

fn number(rt: &impl Eprint, words: &str, n: usize) {
    let _ = eprint!(rt; "{words}{n}");
}

// The body of the first record of kind 4. Where the records end before one, there is none.
fn shipping_of(r: &[u8]) -> Option<Shipping<'_>>
    ensures within { IfSome result (λ s. s.place + length s.packets.now ≤ length r.now) }
    ensures at_place { IfSome result (λ s. s.packets.now ≡ take (length s.packets.now) (drop s.place r.now)) }
{
    let mut rest = r;
    while let Some((header, body)) = rest.split_first_chunk::<HEADER>() {
        let [low, high, kind_low, kind_high] = *header;
        let (packets, next) = body.split_at(packet::word(low, high).min(body.len()));
        if packet::word(kind_low, kind_high) == SHIPPING {
            let place = r.len() - body.len();
            return Some(Shipping { place, packets });
        }
        rest = next;
    }
    None
}

// Sends a fresh head the shipping packets that stand before this place of the report. Where no packet of
// theirs starts there, nothing is reached.
fn reach(r: &[u8], place: usize) -> Option<Reached<'_>> {
    let shipping = shipping_of(r)?;
    let at = place.checked_sub(shipping.place)?;
    let (mut before, bytes) = shipping.packets.split_at_checked(at)?;
    if bytes.is_empty() {
        return None;
    }
    let (mut head, mut number) = (Controller::fresh(), 1usize);
    while !before.is_empty() {
        let mut response = [0u8; OUTPUT];
        // A packet has bytes, so that the rest gets shorter.
        let Progress::Answered {
            taken: taken @ 1..,
            ..
        } = head.receive(before, &mut response).answer.ok()?
        else {
            return None;
        };
        before = before.get(taken..)?;
        number = number.saturating_add(1);
    }
    Some(Reached {
        number,
        bytes,
        head,
    })
}

// Sends the head the packet that the bytes begin with. None where it draws another write response, or the
// call is refused: at the place of a refusal 18 neither is so.
fn send(head: &mut Controller, bytes: &[u8], response: &mut [u8; OUTPUT]) -> Option<Drawn> {
    let reply = head.receive(bytes, response);
    let Progress::Answered { .. } = reply.answer.ok()? else {
        return Some(Drawn::Unfinished);
    };
    let [_, _, _, flags, ..] = head.registers.header;
    match response[0] {
        packet::ERROR => Some(Drawn::Error(reply.wrong)),
        packet::READ_RESPONSE => Some(Drawn::Read),
        packet::WRITE_RESPONSE if flags == packet::BEGINNING => Some(Drawn::Opened),
        _ => None,
    }
}

// An error code, in hex and in words.
fn code_in_words(code: u8) -> &'static str {
    match code {
        0x02 => {
            "code 02 (its type is neither 02 nor 04, its command is not in the table, or it reads 01 06)"
        }
        0x03 => "code 03 (a value is not allowed)",
        0x04 => {
            "code 04 (its payload is over 1,024 bytes, or the open transfer would hold more than that)"
        }
        0x07 => "code 07 (it would run a sequence outside display mode 4)",
        0x09 => "code 09 (its checksum is wrong)",
        0x0A => "code 0A (its data have not the command's size)",
        0x0B => "code 0B (its flags are out of order)",
        _ => "a code that no packet draws",
    }
}

// The codes of an error packet: its payload has a byte for each.
fn tell_codes(rt: &impl Eprint, response: &[u8; OUTPUT]) {
    let count = packet::word(response[4], response[5]);
    let codes = response[packet::HEADER..].iter().take(count);
    for (k, code) in codes.enumerate() {
        if k > 0 {
            text(rt, ", ");
        }
        text(rt, code_in_words(*code));
    }
}

// The field that code 03 is about, by its first byte in the data; in a transfer, in the joined data.
fn tell_wrong(rt: &impl Eprint, byte: u8) {
    number(rt, ": the field at byte ", usize::from(byte));
    text(rt, " of the command's data, counted from 0");
}

// How much there is of the unfinished packet that is these bytes.
fn tell_unfinished(rt: &impl Eprint, bytes: &[u8]) {
    number(rt, "is unfinished: the report has ", bytes.len());
    if bytes.len() < packet::HEADER {
        number(rt, " of the ", packet::HEADER);
        text(rt, " bytes of its header");
        return;
    }
    let size = FRAME + packet::word(bytes[4], bytes[5]);
    number(rt, " of its ", size);
    text(rt, " bytes");
    number(rt, " and lacks ", size.saturating_sub(bytes.len()));
}

fn tell_drawn(rt: &impl Eprint, drawn: Drawn, response: &[u8; OUTPUT], bytes: &[u8]) {
    match drawn {
        Drawn::Error(wrong) => {
            text(rt, "draws an error packet: ");
            tell_codes(rt, response);
            if let Some(byte) = wrong {
                tell_wrong(rt, byte);
            }
        }
        Drawn::Read => text(rt, "draws a read response: it is a read and not a write"),
        Drawn::Opened => text(
            rt,
            "is acknowledged, but the transfer that it opens is left open",
        ),
        Drawn::Unfinished => tell_unfinished(rt, bytes),
    }
}

// Says which packet of a report is refused with 18 at this place, and why. A packet of the shipping
// record starts at the place that `check` gives; at any other place nothing is said.
pub fn tell(rt: &impl Eprint, r: &[u8], place: usize) {
    let Some(reached) = reach(r, place) else {
        return;
    };
    let mut head = reached.head;
    let mut response = [0u8; OUTPUT];
    let Some(drawn) = send(&mut head, reached.bytes, &mut response) else {
        return;
    };
    number(rt, "check-report: packet ", reached.number);
    text(rt, " of the shipping record (counted from 1) ");
    tell_drawn(rt, drawn, &response, reached.bytes);
    number(rt, "; the place is byte ", place);
    text(rt, ", counted from 0\n");
}
