// A simulated head: host bytes on standard input, responses on standard output, from a fresh head
// until the input ends. Each packet is answered as soon as it is complete; one that the input leaves
// unfinished is not answered. Which data byte is wrong where a packet draws code 03 is said on standard
// error. It stops when the output is closed or a read fails.
#![tactic(auto)]

ghost use Rattle.std.specs.Prelude.{◌<◌, IfSome, length};

use command::{Controller, OUTPUT};
use packet::Progress;
use std::io::Read;

// How many bytes a read may bring. It brings what is there and does not wait for more.
const ROOM: usize = 4096;

// One call: takes bytes until they end or one packet is complete, and answers it. The bytes that are
// left; none where the call is refused or the output is closed.
fn serve<'a>(rt: &(impl Print + Eprint), head: &mut Controller, input: &'a [u8]) -> Option<&'a [u8]>
    requires { 0 < length input.now }
    ensures { IfSome result (λ left. length left.now < length input.now) }
{
    let mut out = [0u8; OUTPUT];
    let reply = head.receive(input, &mut out);
    let Progress::Answered { taken, length } = reply.answer.ok()? else {
        // The head waits for more and has taken all.
        return Some(&[]);
    };
    let sent = rt.write_all(out.get(..length)?);
    if let Some(byte) = reply.wrong {
        // The response repeats the packet's CMD1 and CMD2. That this cannot be written is no reason to stop.
        let [_, cmd1, cmd2, ..] = out;
        let _ = eprintln!(rt;
            "head_sim: {cmd1:02x} {cmd2:02x} draws code 03: wrong from data byte {byte} on"
        );
    }
    sent.ok()?;
    input.get(taken..)
}

fn main(rt: HostRuntime) {
    let mut input = rt.stdin();
    let mut buf = [0u8; ROOM];
    let mut head = Controller::fresh();
    // A program ends, so the reads are counted; this count is not reached in centuries.
    for _ in 0..u64::MAX {
        let n = input.read(&mut buf).unwrap_or(0);
        if n == 0 {
            return;
        }
        let mut left = &buf[..n];
        while !left.is_empty() {
            let Some(rest) = serve(&rt, &mut head, left) else {
                return;
            };
            left = rest;
        }
    }
}
