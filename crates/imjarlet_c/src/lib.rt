// The calls of the crate imjarlet for C and Rust, under their names: each export calls the library's function
// and has its promise.
#![tactic(auto)]

ghost use Rattle.std.specs.Prelude.{◌≡◌};
ghost use Rattle.command.specs.Asking.{judge_call, carry_call};
ghost use Rattle.command.specs.Controller.{fresh};
ghost use Rattle.command.specs.Encoder.{list_call};
ghost use Rattle.command.specs.Endpoint.{receive_call};
ghost use Rattle.imjarlet.specs.Exports.{Asks, Carries, Emits, Judges, Receives, write_call};

use command::{Controller, JudgementRecord, Settings};
use imjarlet::Verdict;

// Puts a fresh controller where the caller has one, whatever stood there.
#[unsafe(no_mangle)]
pub extern "C" fn imjarlet_reset(c: &mut Controller) -> u32
    ensures { (result ≡ 0) × (c.new ≡ fresh) }
{
    imjarlet::imjarlet_reset(c)
}

// Takes bytes until the input ends or one packet is complete. The controller is changed where it stands, its
// settings only where a packet was complete.
#[unsafe(no_mangle)]
pub extern "C" fn imjarlet_receive(
    c: &mut Controller,
    input: &[u8],
    out: &mut [u8],
    taken: &mut u64,
    size: &mut u64,
    wrong: &mut u64,
) -> u32
    ensures { Receives (receive_call c.old input.now out.old)
        result taken.new size.new wrong.new c.new out.new }
{
    imjarlet::imjarlet_receive(c, input, out, taken, size, wrong)
}

// What the packet would draw. The controller is only read, and with a refusal nothing is written.
#[unsafe(no_mangle)]
pub extern "C" fn imjarlet_judge(c: &Controller, packet: &[u8], j: &mut JudgementRecord) -> u32
    ensures { Asks (judge_call c.now packet.now j.old) result j.new × (c.exit.now ≡ c.entry.now) }
{
    imjarlet::imjarlet_judge(c, packet, j)
}

// Carries out a judgement. What is half received stays where it is, and the settings change only where the
// judgement was carried out.
#[unsafe(no_mangle)]
pub extern "C" fn imjarlet_carry_out(
    c: &mut Controller,
    j: &JudgementRecord,
    out: &mut [u8],
    size: &mut u64,
) -> u32
    ensures { Carries (carry_call c.old j.now out.old) result size.new c.new out.new }
{
    imjarlet::imjarlet_carry_out(c, j, out, size)
}

// The whole-packet write of what the settings have for this command. Nothing else of the settings is
// looked at.
#[unsafe(no_mangle)]
pub extern "C" fn imjarlet_encode(
    cmd1: u8,
    cmd2: u8,
    settings: &Settings,
    out: &mut [u8],
    size: &mut u64,
) -> u32
    ensures { Emits (write_call cmd1 cmd2 settings.now out.old) result size.new out.new }
{
    imjarlet::imjarlet_encode(cmd1, cmd2, settings, out, size)
}

// One whole-packet write for each command, in table order.
#[unsafe(no_mangle)]
pub extern "C" fn imjarlet_standard_list(settings: &Settings, out: &mut [u8], size: &mut u64) -> u32
    ensures { Emits (list_call settings.now out.old) result size.new out.new }
{
    imjarlet::imjarlet_standard_list(settings, out, size)
}

// The verdict on a report.
#[unsafe(no_mangle)]
pub extern "C" fn imjarlet_check_report(report: &[u8], verdict: &mut Verdict) -> u32
    ensures { Judges report.now result verdict.new }
{
    imjarlet::imjarlet_check_report(report, verdict)
}
