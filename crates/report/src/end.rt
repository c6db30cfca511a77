// What stands after the trials: one record of kind 3 (winner, 2 bytes), one of kind 4 (shipping
// packets), and nothing more.
ghost use Rattle.std.specs.Prelude.{◌≤◌, length};
ghost use Rattle.report.specs.Inner.{WinnerAt};

use crate::record::{HEADER, Kind, record_at, word_at};
use crate::refusal::{Reason, Refusal};

// The bytes of kind 3, header and body.
pub(crate) const WINNER_RECORD: usize = 6;

// The winner. So many trials end at this place, of which `best` is the first of the lowest-scored.
pub(crate) fn winner_of(r: &[u8], at: usize, count: usize, best: usize) -> Result<usize, Refusal>
    requires { at ≤ length r.now }
    ensures { WinnerAt r.now at count best result }
{
    record_at(r, at, Kind::Winner)?;
    let winner = word_at(r, at + HEADER);
    let ship = at + WINNER_RECORD;
    if count <= winner {
        return Err(Reason::NoSuchTrial.at(at));
    }
    let n = record_at(r, ship, Kind::Shipping)?;
    let end = ship + HEADER + n;
    if end < r.len() {
        return Err(Reason::BytesAfterEnd.at(end));
    }
    if winner != best {
        return Err(Reason::NotTheBest.at(at));
    }
    Ok(winner)
}
