// A stream of host bytes to a fresh controller: the sizes of its packets, the byte that is wrong in each,
// the responses, how many bytes of an unfinished packet have come in, the open transfer, and the standard
// list of the end settings. It is run byte by byte, whole, and cut in two at each place; the digest tells
// whether all agree. A row of the guide asks for the responses and the wrong bytes alone.
ghost use Rattle.std.specs.Prelude.{◌≤◌, length};

use crate::said::{Aloud, Said, number, prefix, text};
use command::{Controller, LIST_OUTPUT, OUTPUT};
use packet::{Progress, Refusal, next_packet};

// The last place at which a stream is cut. With all, the work would grow with its length's square.
const PLACES: usize = 1700;

// The place goes on by hand, as `next_packet` wants it.
fn sizes(rt: &impl Print, b: &[u8]) {
    let mut at = 0;
    while let Some(packet) = next_packet(b, at) {
        number(rt, " ", packet.size);
        at += packet.size;
    }
}

// What a call answered: the response is said, and the wrong byte beside it. A call that completes no packet
// has neither; a wrong byte that it told all the same would be one too many.
fn answered<P: Print>(
    said: &mut Said<'_, P>,
    out: &[u8; OUTPUT],
    answer: Result<Progress, Refusal>,
    wrong: Option<u8>,
) {
    if let Ok(Progress::Answered { length, .. }) = answer {
        said.bytes(" ", prefix(out, length));
        said.wrong(wrong);
    } else if wrong.is_some() {
        said.wrong(wrong);
    }
}

// One call on a lent controller: how many bytes it took.
fn call<P: Print>(said: &mut Said<'_, P>, head: &mut Controller, input: &[u8]) -> usize
    ensures { result ≤ length input.now }
{
    let mut out = [0u8; OUTPUT];
    let reply = head.receive(input, &mut out);
    answered(said, &out, reply.answer, reply.wrong);
    let taken = match reply.answer {
        Ok(Progress::Waiting(taken) | Progress::Answered { taken, .. }) => taken,
        Err(_) => 0,
    };
    taken.min(input.len())
}

// Feeds the head a piece, call after call. The last call takes nothing: at the end it is lent no bytes.
fn feed<P: Print>(said: &mut Said<'_, P>, head: &mut Controller, piece: &[u8]) {
    let mut rest = piece;
    loop {
        let taken = call(said, head, rest);
        if taken == 0 {
            return;
        }
        rest = &rest[taken..];
    }
}

// How the head stands at the end of the stream.
fn finish<P: Print>(said: &mut Said<'_, P>, head: &Controller) {
    let registers = head.registers;
    said.number("\nunfinished ", registers.received);
    // The data of an open transfer stands at the start of its buffer.
    if registers.active != 0 {
        said.bytes("\ntransfer ", &[registers.cmd1, registers.cmd2]);
        said.bytes(" ", prefix(&head.buffer, usize::from(registers.held)));
    }
    let mut list = [0u8; LIST_OUTPUT];
    if let Ok(length) = command::standard_list(head.settings, &mut list) {
        said.bytes("\nlist ", prefix(&list, length));
    }
}

// A run byte by byte, by the calls that hand the controller back.
fn run_by_byte<P: Print>(said: &mut Said<'_, P>, b: &[u8]) {
    let mut head = Controller::fresh();
    for byte in b.chunks(1) {
        let mut out = [0u8; OUTPUT];
        let step = command::receive(head, byte, &mut out);
        answered(said, &out, step.answer, step.wrong);
        head = step.controller;
    }
    finish(said, &head);
}

// A run that is cut in two, by the calls on a lent controller.
fn run_cut<P: Print>(said: &mut Said<'_, P>, start: &[u8], end: &[u8]) {
    let mut head = Controller::fresh();
    feed(said, &mut head, start);
    feed(said, &mut head, end);
    finish(said, &head);
}

// The runs: byte by byte and aloud, then cut at each place. Cut at place 0, b is whole.
fn runs(rt: &impl Print, b: &[u8]) -> u32 {
    let mut said = Said::new(rt, Aloud::AllButWrongBytes);
    run_by_byte(&mut said, b);
    said.aloud = Aloud::Nothing;
    for place in 0..=b.len().min(PLACES) {
        let (start, end) = b.split_at(place);
        run_cut(&mut said, start, end);
    }
    said.digest
}

fn feed_whole(rt: &impl Print, aloud: Aloud, b: &[u8]) {
    feed(&mut Said::new(rt, aloud), &mut Controller::fresh(), b);
}

// The responses to a stream that is given whole.
pub fn responses(rt: &impl Print, b: &[u8]) {
    if b.is_empty() {
        text(rt, " -");
        return;
    }
    feed_whole(rt, Aloud::AllButWrongBytes, b);
}

// The wrong byte of each packet of such a stream.
pub fn wrong_bytes(rt: &impl Print, b: &[u8]) {
    feed_whole(rt, Aloud::WrongBytes, b);
}

pub fn tell(rt: &impl Print, b: &[u8]) {
    text(rt, ": packets");
    sizes(rt, b);
    text(rt, "\nwrong");
    wrong_bytes(rt, b);
    text(rt, "\nresponses");
    let digest = runs(rt, b);
    number(rt, "\ndigest ", digest as usize);
    text(rt, "\n");
}
