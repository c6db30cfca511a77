// Ask before sending, over a controller and a judgement that the caller lends.
ghost use Rattle.std.specs.Prelude.{◌≡◌};
ghost use Rattle.command.specs.Asking.{refusal_of, judge_call, carry_call};
ghost use Rattle.imjarlet.specs.Exports.{number_of, Asks, Carries};

use crate::answer::told;
use command::{Controller, JudgeRefusal, JudgementRecord};

// The refusal's number, 0 where there is none.
fn refusal_told(answer: Result<(), JudgeRefusal>) -> u32
    ensures { result ≡ number_of (refusal_of answer) }
{
    match answer {
        Ok(()) => 0,
        Err(refusal) => refusal as u32,
    }
}

// What the packet would draw. The controller is only read, and with a refusal nothing is written.
pub fn imjarlet_judge(c: &Controller, packet: &[u8], j: &mut JudgementRecord) -> u32
    ensures { Asks (judge_call c.now packet.now j.old) result j.new × (c.exit.now ≡ c.entry.now) }
{
    refusal_told(c.judge(packet, j))
}

// Carries out a judgement. What is half received stays where it is, and the settings change only where the
// judgement was carried out.
pub fn imjarlet_carry_out(
    c: &mut Controller,
    j: &JudgementRecord,
    out: &mut [u8],
    size: &mut u64,
) -> u32
    ensures { Carries (carry_call c.old j.now out.old) result size.new c.new out.new }
{
    told(c.carry_out(j, out).map_err(|refusal| refusal as u32), size)
}
