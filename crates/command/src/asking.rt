// The judge call: what a packet would draw, without disturbing the head.
ghost use Rattle.std.specs.Prelude.{◌≡◌, true, ◌≤◌, ◌<◌, length};
ghost use Rattle.packet.specs.Writer.{written};
ghost use Rattle.command.specs.Controller.{transfer_in_rule};
ghost use Rattle.command.specs.Ruling.{data_for, ruling_of};
ghost use Rattle.command.specs.Asking.{no_judgement, judged_of, judging_of, judge_call};
ghost use Rattle.command.specs.Inner.{held_by};

use crate::controller::{Controller, Registers};
use crate::judgement::{Judgement, judge_bytes};
use crate::response::response_type;
use crate::ruling::{JudgementRecord, Kept, Ruling, accepts, codes, told_byte};
use crate::settings::Settings;
use crate::table::Code;
use crate::transfer::{HOLD, TransferState};
use packet::{HEADER, WholePacket};

// Why the call is refused; each refusal has its number.
#[derive(Clone, Copy, PartialEq, Eq)]
pub enum JudgeRefusal {
    // The controller is out of rule.
    OutOfRule = 3,
    // The bytes are not exactly one packet.
    NotOnePacket = 5,
}

// Puts the data of a judgement at the start of an array: those that are held, and behind them those that
// the packet brings, where it is accepted. How many they are.
fn keep(
    t: TransferState,
    buffer: &[u8; HOLD],
    payload: &[u8],
    j: Judgement,
    joined: &mut [u8; HOLD],
) -> usize
    requires rule { transfer_in_rule t ≡ true }
    requires room { length (data_for (held_by t buffer.now) payload.now j) ≤ 1024 }
    ensures { (result ≡ length (data_for (held_by t buffer.now) payload.now j))
        × (joined.new ≡ written (data_for (held_by t buffer.now) payload.now j) joined.old) }
{
    let held = t.held();
    packet::store(joined, 0, &buffer[..held]);
    if let Judgement::Error(_) = j {
        return held;
    }
    packet::store(joined, held, payload);
    held + payload.len()
}

// The numbers of a judgement.
fn ruling(s: Settings, r: Registers, code: Code, count: usize, j: Judgement) -> Ruling
    requires { count ≤ 1024 }
    ensures { result ≡ ruling_of s r code.cmd1 code.cmd2 count j }
{
    let kept = Kept::of(s, r);
    Ruling {
        codes: codes(j),
        accepts: accepts(j),
        wrong: told_byte(j.wrong()),
        count: count as u16,
        cmd1: code.cmd1,
        cmd2: code.cmd2,
        kept,
    }
}

impl Controller {
    // What the bytes would draw, told in a record that is lent; with a refusal it stays as it is.
    pub fn judge(&self, input: &[u8], judgement: &mut JudgementRecord) -> Result<(), JudgeRefusal>
        ensures { judging_of result judgement.new ≡ judge_call self.now input.now judgement.old }
    {
        if !self.in_rule() {
            return Err(JudgeRefusal::OutOfRule);
        }
        let Some(WholePacket { size, right }) = packet::next_packet(input, 0) else {
            return Err(JudgeRefusal::NotOnePacket);
        };
        if size != input.len() {
            return Err(JudgeRefusal::NotOnePacket);
        }
        let t = self.registers.transfer();
        let j = judge_bytes(self.settings.mode, t, &self.buffer, input, right);
        let payload = &input[HEADER..size - 1];
        let count = keep(t, &self.buffer, payload, j, &mut judgement.joined);
        let code = Code::new(input[1], input[2]);
        judgement.ruling = ruling(self.settings, self.registers, code, count, j);
        Ok(())
    }
}

// The call on a controller by value.
pub fn judge_packet(c: Controller, input: &[u8]) -> Result<JudgementRecord, JudgeRefusal>
    ensures { judged_of result ≡ judge_call c input.now no_judgement }
{
    let mut judgement = JudgementRecord::NONE;
    c.judge(input, &mut judgement)?;
    Ok(judgement)
}
