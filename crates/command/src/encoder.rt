// The encoder of write packets and the standard shipping list.
ghost use Rattle.std.specs.Prelude.{◌≡◌, ◌≤◌, length};
ghost use Rattle.packet.specs.Writer.{written};
ghost use Rattle.command.specs.Encoder.{outcome_of, encode_call, list_call, encoded, standard_list};

use crate::output::{OUTPUT, emit};
use crate::rules::{allowed, settings_in_rule};
use crate::settings::{Settings, value_of};
use crate::table::Command;
use crate::value::{Value, data_of};

// The standard list refuses an output shorter than this.
pub const LIST_OUTPUT: usize = 128;

// Why a call is refused; each refusal has its number.
#[derive(Clone, Copy, PartialEq, Eq)]
pub enum EncodeRefusal {
    // The output is shorter than 64 bytes, or 128 for the list.
    ShortOutput = 1,
    // A value is not allowed.
    NotAllowed = 2,
    // The settings are out of rule.
    OutOfRule = 3,
}

// The whole-packet write of a value. Not called but inlined, where its value stays in registers: handed over in memory
// it costs the standard list a third more time.
#[tactic(auto, unfolding(crate::specs::Encoder::encoded, crate::specs::Encoder::write_packet))]
#[inline]
fn put(out: &mut [u8], v: Value) -> usize
    requires { 24 ≤ length out.old }
    ensures { (result ≡ length (encoded v)) × (out.new ≡ written (encoded v) out.old) }
{
    emit(out, packet::HOST_WRITE, v.command().code(), data_of(v))
}

// The writes one after the other.
fn put_list(out: &mut [u8], s: Settings) -> usize
    requires { 128 ≤ length out.old }
    ensures { (result ≡ length (standard_list s)) × (out.new ≡ written (standard_list s) out.old) }
{
    let mut at: usize = 0;
    for c in Command::TABLE {
        at += put(&mut out[at..], value_of(s, c));
    }
    at
}

// One whole write packet at the start of the output, and how long it is. Run 1 is allowed here.
pub fn encode(v: Value, out: &mut [u8]) -> Result<usize, EncodeRefusal>
    ensures { (outcome_of result ≡ (encode_call v out.old).answer) × (out.new ≡ (encode_call v out.old).output) }
{
    if out.len() < OUTPUT {
        return Err(EncodeRefusal::ShortOutput);
    }
    if !allowed(v) {
        return Err(EncodeRefusal::NotAllowed);
    }
    Ok(put(out, v))
}

// One whole-packet write for each command, in table order: played from factory values they bring
// a head to these settings.
pub fn standard_list(s: Settings, out: &mut [u8]) -> Result<usize, EncodeRefusal>
    ensures { (outcome_of result ≡ (list_call s out.old).answer) × (out.new ≡ (list_call s out.old).output) }
{
    if out.len() < LIST_OUTPUT {
        return Err(EncodeRefusal::ShortOutput);
    }
    if !settings_in_rule(s) {
        return Err(EncodeRefusal::OutOfRule);
    }
    Ok(put_list(out, s))
}
