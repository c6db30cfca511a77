// How a complete packet is judged. The judgement is data: finding it and carrying it out are other
// steps.
ghost use Rattle.std.specs.Prelude.{◌≡◌, true, ◌++◌, ◌≤◌, ◌<◌, length};
ghost use Rattle.packet.specs.Packet.{type_of, flags_of, right_sum};
ghost use Rattle.packet.specs.Stream.{size};
ghost use Rattle.command.specs.Judgement.{judge_data as judge_data_of, judge_read as judge_read_of, judge_write as judge_write_of, judge as judge_of};
ghost use Rattle.command.specs.Controller.{transfer_in, packet_in, transfer_in_rule};
ghost use Rattle.command.specs.Faults.{arrived};
ghost use Rattle.command.specs.Response.{wrong_in};

use crate::faults::{Codes, faults};
use crate::rules::{blocked, wrong_byte};
use crate::table::Command;
use crate::transfer::{HOLD, TransferState};
use crate::value::{Value, parse};
use packet::HEADER;

#[derive(Clone, Copy)]
pub(crate) enum Judgement {
    // An error packet with these codes.
    Error(Codes),
    // Bytes of a transfer for this command, to be held.
    Hold(Command),
    // A write to be carried out.
    Write(Value),
    // A read of this command.
    Read(Command),
}

impl Judgement {
    // The byte that code 03 is about.
    pub(crate) fn wrong(self) -> Option<u8>
        ensures { result ≡ wrong_in self }
    {
        match self {
            Judgement::Error(k) => k.wrong,
            _ => None,
        }
    }
}

// The data of a write are complete: what is held, and the payload. No transfer and no flags are looked at.
pub(crate) fn judge_write(c: Command, mode: u8, held: &[u8], payload: &[u8]) -> Judgement
    ensures { result ≡ judge_write_of c mode (held.now ++ payload.now) }
{
    let Some(v) = parse(c, held, payload) else {
        return Judgement::Error(Codes::SIZE);
    };
    if let Some(byte) = wrong_byte(v) {
        return Judgement::Error(Codes::value(byte));
    }
    if blocked(v, mode) {
        return Judgement::Error(Codes::MODE);
    }
    Judgement::Write(v)
}

// A read has no request data.
#[tactic(auto, unfolding(crate::specs::Judgement::judge_read))]
fn judge_read(c: Command, n: usize) -> Judgement
    ensures { result ≡ judge_read_of c n }
{
    if n == 0 {
        return Judgement::Read(c);
    }
    Judgement::Error(Codes::SIZE)
}

// With no fault of the first group: only for flags 00 or 03 are the data complete.
#[tactic(auto, unfolding(crate::specs::Judgement::judge_data))]
fn judge_data(c: Command, mode: u8, header: [u8; HEADER], held: &[u8], payload: &[u8]) -> Judgement
    ensures { result ≡ judge_data_of c mode (type_of header) (flags_of header) (held.now ++ payload.now) }
{
    let kind = header[0];
    let flags = header[3];
    if flags == packet::WHOLE || flags == packet::LAST {
        if kind == packet::HOST_READ {
            return judge_read(c, held.len() + payload.len());
        }
        return judge_write(c, mode, held, payload);
    }
    Judgement::Hold(c)
}

// A complete packet: its header, whether its checksum was right, and its payload. `buffer` begins with
// the held bytes of the open transfer.
pub(crate) fn judge(
    mode: u8,
    t: TransferState,
    header: [u8; HEADER],
    right: bool,
    buffer: &[u8; HOLD],
    payload: &[u8],
) -> Judgement
    requires { transfer_in_rule t ≡ true }
    ensures { result ≡ judge_of mode (transfer_in t buffer.now) (packet_in header right payload.now) }
{
    let found = Command::find(header[1], header[2]);
    let codes = faults(found, t, header, right);
    let Some(c) = found else {
        return Judgement::Error(codes);
    };
    if codes.first_group() {
        return Judgement::Error(codes);
    }
    let n = t.held();
    judge_data(c, mode, header, &buffer[..n], payload)
}

// One whole packet, its checksum right or not.
pub(crate) fn judge_bytes(
    mode: u8,
    t: TransferState,
    buffer: &[u8; HOLD],
    p: &[u8],
    right: bool,
) -> Judgement
    requires rule { transfer_in_rule t ≡ true }
    requires whole { (7 ≤ length p.now) × (size p.now ≡ length p.now) }
    requires sum { right ≡ right_sum p.now }
    ensures { result ≡ judge_of mode (transfer_in t buffer.now) (arrived p.now) }
{
    let header = [p[0], p[1], p[2], p[3], p[4], p[5]];
    judge(mode, t, header, right, buffer, &p[HEADER..p.len() - 1])
}
