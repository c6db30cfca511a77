// Runs the stored cases and prints what the library answers; `rt` holds that to the file `stdout`.
// The file `01` has the cases of document 01: 700 packets, each after some bytes sent before, 400
// streams of host bytes, 51 streams for the packet layer, and 507 reports. The file `02` has those of
// request 2: 220 streams, 233 reports, 200 standard lists and 199 packets of the encoder. The file `03`
// tries each row of the guide's tables of parameter values at its limits and just past them, 521 cases.
// The file `04` has those of request 4: 216 streams, 10 more in which several fields of a packet are wrong,
// 233 reports, 15 more that are refused with 18, 200 standard lists and 199 packets of the encoder.
// The file `05` has those of request 5: 210 streams, 234 reports, 200 standard lists, 200 packets of the
// encoder, 300 packets to judge, 11 more, 377 judgements to carry out, and 45 more.
// A case is a row: its kind in a byte, its length in four, least significant first, and its bytes.
// `scripts/vectors-data` makes the cases and the expected text from the vectors and the papers, and
// nothing of it comes from this program. What is proved of the program is that it is safe and ends.
#![tactic(auto)]

mod asking;
mod case;
mod emit;
mod guide;
mod said;
mod stream;

use case::Case;
use report::{Accepted, LINE, Refusal};
use said::{number, prefix, text};
use std::io::Read;
use std::rt::Files;
use std::{fs, io};

// Room for the longest case, and more rows than the file has: nothing says that a file ends.
const ROOM: usize = 70000;

const ROWS: usize = 65536;

// The line of the checking program.
fn line(rt: &impl Print, answer: Result<Accepted, Refusal>) {
    let mut bytes = [0u8; LINE];
    let n = report::write_line(&mut bytes, answer);
    let _ = rt.write_all(prefix(&bytes, n));
}

// And for a yes the end settings.
fn report(rt: &impl Print, b: &[u8]) {
    text(rt, ": ");
    let answer = report::check(b);
    line(rt, answer);
    if let Ok(yes) = answer {
        emit::ended(rt, yes.settings);
    }
}

// The kinds are letters in the file, and told apart here alone: an enum of them would be no plainer.
fn tell(rt: &impl Print, kind: u8, b: &[u8]) {
    match kind {
        b's' => stream::tell(rt, b),
        b'r' => report(rt, b),
        b'l' => emit::list(rt, Case::new(b)),
        b'e' => emit::packet(rt, Case::new(b)),
        b'g' => guide::tell(rt, Case::new(b)),
        b'j' => asking::judge(rt, Case::new(b)),
        b'c' => asking::carry(rt, Case::new(b)),
        _ => text(rt, " of no known kind\n"),
    }
}

// Reads and runs a row. Where there is no whole one, that is the error.
fn next(rt: &impl Print, file: &mut impl Read, row: usize, room: &mut [u8]) -> io::Result<()> {
    let mut head = [0u8; 5];
    file.read_exact(&mut head)?;
    let [kind, a, b, c, d] = head;
    let n = (u32::from_le_bytes([a, b, c, d]) as usize).min(room.len());
    file.read_exact(&mut room[..n])?;
    number(rt, "case ", row);
    tell(rt, kind, &room[..n]);
    Ok(())
}

fn rows(rt: &impl Print, file: &mut impl Read) {
    let mut room = [0u8; ROOM];
    for row in 1..ROWS {
        if next(rt, file, row, &mut room).is_err() {
            break;
        }
    }
}

// A file that cannot be opened has no rows.
fn file(rt: &(impl Files + Print), name: &str) {
    text(rt, "file ");
    text(rt, name);
    text(rt, "\n");
    if let Ok(mut opened) = fs::open(rt, name) {
        rows(rt, &mut opened);
    }
}

fn main(rt: HostRuntime) {
    for name in ["01", "02", "03", "04", "05"] {
        file(&rt, name);
    }
}
