// What the standard list and the encoder write.
use crate::case::{Case, SETTINGS};
use crate::said::{hex, number, prefix, text};
use command::{Command, EncodeRefusal, LIST_OUTPUT, OUTPUT, Settings};

// Room for the longest output.
const ROOM: usize = 2000;

// What is written, or the refusal.
fn told(rt: &impl Print, answer: Result<usize, EncodeRefusal>, out: &[u8]) {
    match answer {
        Ok(length) => hex(rt, "written ", prefix(out, length)),
        Err(refusal) => number(rt, "refused ", refusal as usize),
    }
}

// The end settings of a report, by their standard list.
pub fn ended(rt: &impl Print, s: Settings) {
    let mut out = [0u8; LIST_OUTPUT];
    if let Ok(length) = command::standard_list(s, &mut out) {
        hex(rt, "list ", prefix(&out, length));
        text(rt, "\n");
    }
}

// How long the standard list is, or the refusal.
pub fn list_length(rt: &impl Print, s: Settings) {
    let mut out = [0u8; LIST_OUTPUT];
    match command::standard_list(s, &mut out) {
        Ok(length) => number(rt, "written ", length),
        Err(refusal) => number(rt, "refused ", refusal as usize),
    }
}

// The packet of a command, if it is in the table.
fn packet_to(rt: &impl Print, command: Option<Command>, s: Settings, out: &mut [u8]) {
    let Some(c) = command else {
        text(rt, "no command");
        return;
    };
    let answer = command::encode(command::value_of(s, c), out);
    told(rt, answer, out);
}

// The same to an output that is just long enough.
pub fn packet_of(rt: &impl Print, command: Option<Command>, s: Settings) {
    let mut out = [0u8; OUTPUT];
    packet_to(rt, command, s, &mut out);
}

// The output's length in two bytes, and the settings.
pub fn list(rt: &impl Print, mut case: Case<'_>) {
    text(rt, ": ");
    if case.left() != 2 + SETTINGS {
        text(rt, "of another length\n");
        return;
    }
    let n = usize::from(case.word()).min(ROOM);
    let mut out = [0u8; ROOM];
    let answer = command::standard_list(case.settings(), &mut out[..n]);
    told(rt, answer, &out);
    text(rt, "\n");
}

// The command in two bytes, the output's length in two, and the settings.
pub fn packet(rt: &impl Print, mut case: Case<'_>) {
    text(rt, ": ");
    if case.left() != 4 + SETTINGS {
        text(rt, "of another length\n");
        return;
    }
    let command = Command::find(case.byte(), case.byte());
    let n = usize::from(case.word()).min(ROOM);
    let mut out = [0u8; ROOM];
    packet_to(rt, command, case.settings(), &mut out[..n]);
    text(rt, "\n");
}
