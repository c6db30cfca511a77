// What stands before the trials: one record of kind 1 (version, 2 bytes; trial count, 2 bytes).
ghost use Rattle.report.specs.Inner.{HeadAt};

use crate::record::{HEADER, Kind, record_at, word_at};
use crate::refusal::{Reason, Refusal};

// The longest report.
pub const LONGEST: usize = 60000;

const VERSION: usize = 1;

// The trial count.
pub(crate) fn count_of(r: &[u8]) -> Result<usize, Refusal>
    ensures { HeadAt r.now result }
{
    if LONGEST < r.len() {
        return Err(Reason::TooLong.at(0));
    }
    record_at(r, 0, Kind::Head)?;
    let version = word_at(r, HEADER);
    let count = word_at(r, HEADER + 2);
    if version != VERSION {
        return Err(Reason::WrongVersion.at(0));
    }
    if count == 0 {
        return Err(Reason::NoTrials.at(0));
    }
    Ok(count)
}
