// Reads a tuning report from standard input and says yes or no, in one line. With the argument
// `--explain` it also says, on standard error, which packet of the shipping record refusal 18 is about.
#![tactic(auto)]

mod explain;

ghost use Rattle.std.specs.Prelude.{◌≡◌, ◌≤◌, length};
ghost use Rattle.packet.specs.Writer.{written};
ghost use Rattle.report.specs.Report.{verdict};
ghost use Rattle.report.specs.Line.{line_of};

use report::{Accepted, LINE, LONGEST, Reason, Refusal, check, write_line};
use std::env::Env;
use std::io::Read;

// One byte more than a report may have: a longer input is refused for its length, and the rest of
// it is not read.
const ROOM: usize = LONGEST + 1;

// The verdict on a report, and how long its line is.
#[derive(Clone, Copy)]
struct Judged {
    answer: Result<Accepted, Refusal>,
    length: usize,
}

// Writes the line of the verdict on a report, and says how long it is.
fn judge(out: &mut [u8; LINE], r: &[u8]) -> Judged
    ensures { (result.length ≡ length (line_of (verdict r.now))) × (out.new ≡ written (line_of (verdict r.now)) out.old) }
{
    let answer = check(r);
    let length = write_line(out, answer);
    Judged { answer, length }
}

// Whether the first argument asks for words. A longer one than these 9 bytes does not fit, and is another.
fn explain_asked(rt: &impl Env) -> bool {
    let mut given = [0u8; 9];
    rt.arg(1, &mut given)
        .is_ok_and(|n| n == given.len() && given == *b"--explain")
}

// Reads until the buffer is full, the input ends or a read fails: how many bytes it put at the start of
// the buffer. `read_to_end` would do it into a `Vec`, for which memory can run out.
fn read_full(input: &mut impl Read, buf: &mut [u8]) -> usize
    ensures { result ≤ length buf.new }
{
    let mut done = 0;
    while let Ok(n @ 1..) = input.read(&mut buf[done..]) {
        done += n;
    }
    done
}

fn main(rt: HostRuntime) {
    let mut input = [0u8; ROOM];
    let given = read_full(&mut rt.stdin(), &mut input);
    let report = &input[..given];
    let mut line = [0u8; LINE];
    let judged = judge(&mut line, report);
    let _ = rt.write_all(&line[..judged.length]);
    if let Err(
        Refusal {
            reason: Reason::ShippingRefused,
            place,
        },
    ) = judged.answer
    {
        if explain_asked(&rt) {
            explain::tell(&rt, report, place);
        }
    }
}
