// Playing bytes from given settings, with no transfer open.
ghost use Rattle.std.specs.Prelude.{◌≡◌, cond, None, Some};
ghost use Rattle.command.specs.Response.{acknowledged};
ghost use Rattle.command.specs.Player.{earlier, end_settings, end_offence};

use crate::carry::{settings_after, transfer_after};
use crate::judgement::{Judgement, judge_bytes};
use crate::response::response_type;
use crate::rules::settings_in_rule;
use crate::settings::Settings;
use crate::transfer::{HOLD, TransferState};
use packet::{HEADER, WholePacket, next_packet};

// Where a play ended.
#[derive(Clone, Copy)]
pub struct Played {
    pub settings: Settings,
    // Where the bytes offend: the first byte of the earliest of the first packet that is not acknowledged, the
    // unfinished packet, and the packet that opened the transfer left open; 0 where the settings are out of
    // rule, and nothing is played.
    pub offence: Option<usize>,
}

// The earlier of two places.
fn earlier(a: Option<usize>, b: Option<usize>) -> Option<usize>
    ensures { result ≡ earlier a b }
{
    match (a, b) {
        (Some(m), Some(n)) => Some(m.min(n)),
        (Some(_), None) => a,
        (None, _) => b,
    }
}

// A packet that is not acknowledged offends.
fn unacknowledged(at: usize, j: Judgement) -> Option<usize>
    ensures { result ≡ cond (acknowledged j) None (Some at) }
{
    (response_type(j) != packet::WRITE_RESPONSE).then_some(at)
}

// Settings out of rule are not played: they stay, and the place is 0, also where there is no byte.
pub fn play(s: Settings, b: &[u8]) -> Played
    ensures { (result.settings ≡ end_settings s b.now) × (result.offence ≡ end_offence s b.now) }
{
    if !settings_in_rule(s) {
        return Played {
            settings: s,
            offence: Some(0),
        };
    }
    let mut settings = s;
    let mut transfer = TransferState::NONE;
    let mut buffer = [0u8; HOLD];
    // The first packet that is not acknowledged, and the opener of the open transfer.
    let mut first = None;
    let mut opener: usize = 0;
    let mut at: usize = 0;
    // Not an iterator over the packets: the place of a packet is what an offence is told by.
    while let Some(WholePacket { size, right }) = next_packet(b, at) {
        let p = &b[at..at + size];
        let j = judge_bytes(settings.mode, transfer, &buffer, p, right);
        first = first.or(unacknowledged(at, j));
        if !transfer.is_open() {
            opener = at;
        }
        settings = settings_after(settings, j);
        transfer = transfer_after(transfer, &mut buffer, &p[HEADER..size - 1], j);
        at += size;
    }
    // What stands behind the last whole packet is unfinished.
    let unfinished = (at < b.len()).then_some(at);
    let left_open = transfer.is_open().then_some(opener);
    Played {
        settings,
        offence: earlier(first, earlier(unfinished, left_open)),
    }
}
