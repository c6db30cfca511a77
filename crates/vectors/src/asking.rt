// A packet that is judged, and a judgement that is carried out, each by a controller that a case makes
// up: its settings, its open transfer, and the first bytes of a packet that is coming in. A judgement is
// told with all that it says; of a carrying out, the response, the standard list of the settings and the
// open transfer afterwards, and "touched" where something else has changed. A case has its answer behind
// it, for `tests/differential`; that is not looked at here.
use crate::case::Case;
use crate::said::{hex, number, prefix, text};
use command::{
    CarryOutRefusal, Controller, HOLD, JudgementRecord, Kept, LIST_OUTPUT, Registers, Ruling,
};

// Room for the longest output, and what its bytes are before the call.
const ROOM: usize = 2000;

const BLANK: u8 = 0xA5;

// The settings, and the transfer: whether it is open, its command, how many bytes are held in two bytes,
// and these. Of a packet three bytes have come in.
fn controller(case: &mut Case<'_>) -> Controller {
    let settings = case.settings();
    let active = case.byte();
    let cmd1 = case.byte();
    let cmd2 = case.byte();
    let held = case.word();
    Controller {
        settings,
        registers: Registers {
            received: 3,
            held,
            active,
            cmd1,
            cmd2,
            header: [2, 1, 3, 7, 8, 9],
            sum: 6,
        },
        buffer: case.array(usize::from(held)),
        hold: [0x5A; HOLD],
    }
}

// The numbers of a judgement, in the order of the record, and its joined data.
fn judgement(case: &mut Case<'_>) -> JudgementRecord {
    let ruling = Ruling {
        codes: case.word(),
        accepts: case.word(),
        wrong: case.word(),
        count: case.word(),
        cmd1: case.byte(),
        cmd2: case.byte(),
        kept: Kept {
            held: case.word(),
            mode: case.byte(),
            active: case.byte(),
            cmd1: case.byte(),
            cmd2: case.byte(),
        },
    };
    JudgementRecord {
        ruling,
        joined: case.array(usize::from(ruling.count)),
    }
}

// Bytes, or that there are none.
fn bytes(rt: &impl Print, b: &[u8]) {
    if b.is_empty() {
        text(rt, " -");
    } else {
        hex(rt, " ", b);
    }
}

// An open transfer, as the record has it: its command and the held bytes.
fn transfer(rt: &impl Print, active: u8, cmd1: u8, cmd2: u8, held: &[u8]) {
    text(rt, " | transfer");
    if active == 0 {
        text(rt, " -");
        return;
    }
    bytes(rt, &[cmd1, cmd2]);
    bytes(rt, held);
}

// By the numbers of the record, which may have others.
fn accepted(accepts: u16) -> &'static str {
    match accepts {
        0 => "error",
        command::HOLDS => "hold",
        command::WRITES => "write",
        command::READS => "read",
        _ => "of no known kind",
    }
}

// The codes of which the bits are set.
fn codes(rt: &impl Print, bits: u16) {
    for n in 0..u16::BITS {
        if bits >> n & 1 == 1 {
            let _ = print!(rt; " {n:02x}");
        }
    }
}

fn wrong(rt: &impl Print, w: u16) {
    match w {
        command::NO_WRONG_BYTE => text(rt, " | wrong -"),
        _ => number(rt, " | wrong ", usize::from(w)),
    }
}

// What the packet draws, what was judged under, and the joined data.
fn judged(rt: &impl Print, j: &JudgementRecord) {
    let n = j.ruling;
    let kept = n.kept;
    text(rt, accepted(n.accepts));
    codes(rt, n.codes);
    text(rt, " | cmd");
    bytes(rt, &[n.cmd1, n.cmd2]);
    wrong(rt, n.wrong);
    number(rt, " | mode ", usize::from(kept.mode));
    let held = prefix(&j.joined, usize::from(kept.held));
    transfer(rt, kept.active, kept.cmd1, kept.cmd2, held);
    text(rt, " | joined");
    bytes(rt, prefix(&j.joined, usize::from(n.count)));
}

// The controller, the packet's length in four bytes, and the packet: what the controller makes of it.
pub fn judge(rt: &impl Print, mut case: Case<'_>) {
    text(rt, ": ");
    let c = controller(&mut case);
    let n = case.long() as usize;
    match command::judge_packet(c, case.bytes(n)) {
        Ok(j) => judged(rt, &j),
        Err(refusal) => number(rt, "refused ", refusal as usize),
    }
    text(rt, "\n");
}

// The output is as it was.
fn blank(out: &[u8]) -> bool {
    out.iter().all(|byte| *byte == BLANK)
}

// The packet that is coming in is as it was: a part of the controller, so that no derived equality says it.
fn same_packet(c: &Controller, after: &Controller) -> bool {
    let r = c.registers;
    let s = after.registers;
    c.hold == after.hold && r.header == s.header && r.received == s.received && r.sum == s.sum
}

// The response or the refusal; whether all else is as it was.
fn told(
    rt: &impl Print,
    c: &Controller,
    after: &Controller,
    answer: Result<usize, CarryOutRefusal>,
    out: &[u8; ROOM],
) -> bool {
    match answer {
        Ok(length) => {
            text(rt, "written");
            let response = prefix(out, length);
            bytes(rt, response);
            same_packet(c, after) && blank(&out[response.len()..])
        }
        Err(refusal) => {
            number(rt, "refused ", refusal as usize);
            c == after && blank(out)
        }
    }
}

// The settings, by their standard list, and the open transfer.
fn ended(rt: &impl Print, c: &Controller) {
    let mut list = [0u8; LIST_OUTPUT];
    text(rt, " | list");
    match command::standard_list(c.settings, &mut list) {
        Ok(length) => bytes(rt, prefix(&list, length)),
        Err(_) => text(rt, " refused"),
    }
    let r = c.registers;
    let held = prefix(&c.buffer, usize::from(r.held));
    transfer(rt, r.active, r.cmd1, r.cmd2, held);
}

// The controller, the judgement, and the output's length in two bytes: what carrying out does.
pub fn carry(rt: &impl Print, mut case: Case<'_>) {
    text(rt, ": ");
    let c = controller(&mut case);
    let j = judgement(&mut case);
    let n = usize::from(case.word()).min(ROOM);
    let mut out = [BLANK; ROOM];
    let step = command::carry_out(c, j, &mut out[..n]);
    let kept = told(rt, &c, &step.controller, step.answer, &out);
    ended(rt, &step.controller);
    if !kept {
        text(rt, " | touched");
    }
    text(rt, "\n");
}
