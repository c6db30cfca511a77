// Carrying out a judgement: what it changes, and the response. Nothing else writes one.
ghost use Rattle.std.specs.Prelude.{◌≡◌, true, ◌<◌, ◌≤◌, length};
ghost use Rattle.packet.specs.Writer.{written};
ghost use Rattle.command.specs.Controller.{transfer_of, transfer_in_rule, transfer_state_after, buffer_after};
ghost use Rattle.command.specs.Carry.{settings_after as settings_after_of};
ghost use Rattle.command.specs.Response.{response_to};
ghost use Rattle.command.specs.Inner.{with_transfer};

use crate::controller::Registers;
use crate::judgement::Judgement;
use crate::response::respond;
use crate::settings::{Settings, stored};
use crate::table::Code;
use crate::transfer::{HOLD, TransferState};

// The settings afterwards: only a write changes them.
pub(crate) fn settings_after(s: Settings, j: Judgement) -> Settings
    ensures { result ≡ settings_after_of s j }
{
    match j {
        Judgement::Write(v) => stored(s, v),
        _ => s,
    }
}

// The transfer afterwards. The payload of a part joins the held bytes, with which `buffer` begins: an array of
// its own beside the numbers, since it stays where the caller lent it and the numbers are few.
pub(crate) fn transfer_after(
    t: TransferState,
    buffer: &mut [u8; HOLD],
    payload: &[u8],
    j: Judgement,
) -> TransferState
    requires { transfer_in_rule t ≡ true }
    ensures { (result ≡ transfer_state_after t payload.now j)
        × (buffer.new ≡ buffer_after t buffer.old payload.now j) }
{
    match j {
        Judgement::Error(_) => TransferState::NONE,
        Judgement::Hold(c) => {
            let code = c.code();
            let held = t.held();
            packet::store(buffer, held, payload);
            TransferState {
                active: 1,
                cmd1: code.cmd1,
                cmd2: code.cmd2,
                held: held + payload.len(),
            }
        }
        Judgement::Write(_) => TransferState::NONE,
        Judgement::Read(_) => t,
    }
}

// Carries out the judgement of a packet with this CMD1 and CMD2 and this payload, and says how long the response is.
// The output stays a slice, and its room a clause: the promise is about each byte of what the caller lends.
// Settings, registers and buffer come apart, since the payload may lie in the same controller.
pub(crate) fn carry(
    settings: &mut Settings,
    registers: &mut Registers,
    buffer: &mut [u8; HOLD],
    code: Code,
    payload: &[u8],
    j: Judgement,
    out: &mut [u8],
) -> usize
    requires rule { transfer_in_rule (transfer_of registers.old) ≡ true }
    requires held { length payload.now ≤ 1024 }
    requires room { 64 ≤ length out.old }
    ensures settings { settings.new ≡ settings_after_of settings.old j }
    ensures registers { registers.new ≡ with_transfer registers.old (transfer_state_after (transfer_of registers.old) payload.now j) }
    ensures buffer { buffer.new ≡ buffer_after (transfer_of registers.old) buffer.old payload.now j }
    ensures length { result ≡ length (response_to code.cmd1 code.cmd2 settings.old j) }
    ensures output { out.new ≡ written (response_to code.cmd1 code.cmd2 settings.old j) out.old }
{
    let length = respond(out, *settings, code, j);
    *settings = settings_after(*settings, j);
    registers.set_transfer(transfer_after(registers.transfer(), buffer, payload, j));
    length
}
