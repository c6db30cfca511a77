// A packet of a command's data, written to a lent output.
ghost use Rattle.std.specs.Prelude.{◌≡◌, ◌≤◌, length};
ghost use Rattle.packet.specs.Packet.{packet_of, whole};
ghost use Rattle.packet.specs.Writer.{written};

use crate::data::Data;
use crate::table::Code;
use packet::Head;

// An output shorter than this is refused.
pub const OUTPUT: usize = 64;

// Writes the packet of these fields and data to the start of out; the rest of out stays. How many
// bytes it has: at most 24, so that it goes into every output.
#[tactic(auto, using(packet::proofs::WriterLaws::has_room, packet::proofs::WriterLaws::size_written))]
pub(crate) fn emit(out: &mut [u8], kind: u8, code: Code, d: Data) -> usize
    requires { 24 ≤ length out.old }
    ensures { (result ≡ length (packet_of kind code.cmd1 code.cmd2 whole d)) × (out.new ≡ written (packet_of kind code.cmd1 code.cmd2 whole d) out.old) }
{
    let payload = d.as_slice();
    // There is room, so the packet goes in.
    let head = Head {
        kind,
        cmd1: code.cmd1,
        cmd2: code.cmd2,
        flags: packet::WHOLE,
    };
    packet::write_packet(out, head, payload).unwrap()
}
