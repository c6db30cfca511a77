// A row of the guide's tables of parameter values, tried at one value: the responses to a stream that
// writes it to a fresh controller, the wrong bytes beside them, what the encoder makes of it, and how long
// the standard list is of settings that have it. All stand in one line, after a label that names the row
// and the value.
use crate::case::{Case, SETTINGS};
use crate::said::text;
use crate::{emit, stream};
use command::Command;

// The label's length in a byte, the label, the command in two bytes, the stream's length in two, the
// stream, and the settings. Where the case is too short for a part, nothing is left for the settings.
pub fn tell(rt: &impl Print, mut case: Case<'_>) {
    text(rt, ": ");
    let n = usize::from(case.byte());
    let label = case.bytes(n);
    let command = Command::find(case.byte(), case.byte());
    let n = usize::from(case.word());
    let sent = case.bytes(n);
    if case.left() != SETTINGS {
        text(rt, "of another length\n");
        return;
    }
    let _ = rt.write_all(label);
    text(rt, " |");
    stream::responses(rt, sent);
    text(rt, " | wrong");
    stream::wrong_bytes(rt, sent);
    text(rt, " | ");
    let s = case.settings();
    emit::packet_of(rt, command, s);
    text(rt, " | ");
    emit::list_length(rt, s);
    text(rt, "\n");
}
