// The next whole packet of a slice.
ghost use Rattle.std.specs.Prelude.{◌≡◌, ◌-◌, ◌<◌, length, take, drop, ◌==◌, slice_index};
ghost use Rattle.packet.specs.Packet.{checksum};
ghost use Rattle.packet.specs.Stream.{next_in};

use crate::bytes::sum_with;
use crate::number::word;
use crate::packet::FRAME;

// A whole packet that stands at a place of a slice.
#[derive(Clone, Copy)]
pub struct WholePacket {
    // How many bytes it has.
    pub size: usize,
    // Whether its checksum is right.
    pub right: bool,
}

// The last byte is the checksum of those before it.
fn right_sum(p: &[u8]) -> bool
    requires { 0 < length p.now }
    ensures { result ≡ (slice_index p.now (length p.now - 1) == checksum (take (length p.now - 1) p.now)) }
{
    let n = p.len() - 1;
    p[n] == sum_with(0, &p[..n])
}

// The packet that starts at `at`; none where too few bytes are left for one.
pub fn next_packet(b: &[u8], at: usize) -> Option<WholePacket>
    ensures { result ≡ next_in (drop at b.now) }
{
    let left = b.get(at..)?;
    if left.len() < FRAME {
        return None;
    }
    let size = FRAME + word(left[4], left[5]);
    let packet = left.get(..size)?;
    Some(WholePacket {
        size,
        right: right_sum(packet),
    })
}
