// The encoder and the standard shipping list.
ghost use Rattle.std.specs.Prelude.{cond, ◌≡◌, ltb, Err};
ghost use Rattle.command.specs.Encoder.{Refuses, outcome_of, refusal_of, length_of, list_call};
ghost use Rattle.imjarlet.specs.Exports.{Emits, write_call};

use crate::answer::told;
use command::{Command, EncodeRefusal, Settings};

// The numbers of an answer.
fn encoded(answer: Result<usize, EncodeRefusal>, size: &mut u64) -> u32
    ensures { (result ≡ refusal_of (outcome_of answer)) × (size.new ≡ length_of (outcome_of answer)) }
{
    told(answer.map_err(|refusal| refusal as u32), size)
}

// The refusal of a command that is not in the table, tested after the output's length.
fn unknown(n: usize) -> EncodeRefusal
    ensures { outcome_of (Err result) ≡ Refuses (cond (ltb n 64) 1 2) }
{
    if n < command::OUTPUT {
        return EncodeRefusal::ShortOutput;
    }
    EncodeRefusal::NotAllowed
}

// The whole-packet write of what the settings have for this command. Nothing else of the settings is
// looked at.
pub fn imjarlet_encode(
    cmd1: u8,
    cmd2: u8,
    settings: &Settings,
    out: &mut [u8],
    size: &mut u64,
) -> u32
    ensures { Emits (write_call cmd1 cmd2 settings.now out.old) result size.new out.new }
{
    let Some(c) = Command::find(cmd1, cmd2) else {
        return encoded(Err(unknown(out.len())), size);
    };
    encoded(command::encode(command::value_of(*settings, c), out), size)
}

// One whole-packet write for each command, in table order.
pub fn imjarlet_standard_list(settings: &Settings, out: &mut [u8], size: &mut u64) -> u32
    ensures { Emits (list_call settings.now out.old) result size.new out.new }
{
    encoded(command::standard_list(*settings, out), size)
}
