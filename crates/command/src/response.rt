// The response that a judgement draws.
ghost use Rattle.std.specs.Prelude.{◌≡◌, ◌≤◌, length};
ghost use Rattle.packet.specs.Packet.{packet_of, whole};
ghost use Rattle.packet.specs.Writer.{written};
ghost use Rattle.command.specs.Faults.{codes_of};
ghost use Rattle.command.specs.Response.{response_type, response_data};

use crate::data::Data;
use crate::faults::Codes;
use crate::judgement::Judgement;
use crate::output::emit;
use crate::settings::{Settings, value_of};
use crate::table::Code;
use crate::value::data_of;

// One byte for each code, ascending.
#[tactic(auto, unfolding(crate::specs::Faults::codes_of))]
fn codes_data(k: Codes) -> Data
    ensures { result ≡ codes_of k }
{
    let mut data = Data::new();
    for (holds, code) in [
        (k.failure, 0x01),
        (k.command, 0x02),
        (k.parameter, 0x03),
        (k.memory, 0x04),
        (k.device, 0x05),
        (k.busy, 0x06),
        (k.precondition, 0x07),
        (k.object, 0x08),
        (k.checksum, 0x09),
        (k.format, 0x0A),
        (k.continuation, 0x0B),
    ] {
        if holds {
            data = data.append(&[code]);
        }
    }
    data
}

// The type of the response.
pub(crate) fn response_type(j: Judgement) -> u8
    ensures { result ≡ response_type j }
{
    match j {
        Judgement::Error(_) => packet::ERROR,
        Judgement::Hold(_) | Judgement::Write(_) => packet::WRITE_RESPONSE,
        Judgement::Read(_) => packet::READ_RESPONSE,
    }
}

#[tactic(auto, using(crate::proofs::value::Laws::data_from))]
fn response_data(s: Settings, j: Judgement) -> Data
    ensures { result ≡ response_data s j }
{
    match j {
        Judgement::Error(k) => codes_data(k),
        Judgement::Hold(_) | Judgement::Write(_) => Data::new(),
        Judgement::Read(c) => data_of(value_of(s, c)),
    }
}

// The response that a judgement draws: it repeats CMD1 and CMD2.
pub(crate) fn respond(out: &mut [u8], s: Settings, code: Code, j: Judgement) -> usize
    requires { 64 ≤ length out.old }
    ensures { (result ≡ length (packet_of (response_type j) code.cmd1 code.cmd2 whole (response_data s j))) × (out.new ≡ written (packet_of (response_type j) code.cmd1 code.cmd2 whole (response_data s j)) out.old) }
{
    let kind = response_type(j);
    let d = response_data(s, j);
    emit(out, kind, code, d)
}
