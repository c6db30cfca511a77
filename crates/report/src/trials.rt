// The trials, each a record of kind 2 (score, 4 bytes; packet bytes).
ghost use Rattle.std.specs.Prelude.{◌<◌, ◌≤◌, length};
ghost use Rattle.report.specs.Inner.{BestAt};

use crate::record::{HEADER, Kind, long_at, record_at};
use crate::refusal::Refusal;
use command::{Settings, play};

// Where the trials begin: after kind 1.
const FIRST: usize = 8;

// Where a trial's packets begin in its record: after the header and the score.
const PACKETS: usize = 8;

// The first of the lowest-scored trials, with its score and the settings that it ended with.
#[derive(Clone, Copy)]
pub(crate) struct Best {
    pub trial: usize,
    pub score: usize,
    pub settings: Settings,
}

// So many trials; trial 0 starts from factory values, each later trial from where the last ended.
// The best of them, and the place after them all. The place goes on by hand: how long a record is stands in it.
pub(crate) fn best_of(r: &[u8], count: usize) -> Result<(Best, usize), Refusal>
    requires { (8 ≤ length r.now) × (0 < count) }
    ensures { BestAt r.now count result }
{
    let mut at = FIRST;
    let mut last = Settings::factory();
    let mut best: Option<Best> = None;
    for i in 0..count {
        let n = record_at(r, at, Kind::Trial)?;
        let next = at + HEADER + n;
        let score = long_at(r, at + HEADER);
        let ended = play(last, &r[at + PACKETS..next]).settings;
        if best.is_none_or(|b| score < b.score) {
            best = Some(Best {
                trial: i,
                score,
                settings: ended,
            });
        }
        last = ended;
        at = next;
    }
    // There is a best: count is not 0.
    Ok((best.unwrap(), at))
}
