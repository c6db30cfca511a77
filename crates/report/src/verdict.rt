// The yes or the no to a report: refusals 18 and 19 after those of the reading.
ghost use Rattle.report.specs.Claim.{Demand3};
ghost use Rattle.report.specs.Verdict.{verdict_in};

use crate::end::{WINNER_RECORD, winner_of};
use crate::head::count_of;
use crate::record::HEADER;
use crate::refusal::{Reason, Refusal};
use crate::trials::best_of;
use command::{Settings, play};

// What an accepted report yields.
#[derive(Clone, Copy, PartialEq, Eq)]
pub struct Accepted {
    // The trial that the report names.
    pub trial: usize,
    pub score: usize,
    // The settings that it ended with.
    pub settings: Settings,
}

// Whether the settings that the report ships are those of its best trial.
pub fn check(r: &[u8]) -> Result<Accepted, Refusal>
    ensures { Demand3 r.now (verdict_in result) }
{
    let count = count_of(r)?;
    let (best, place) = best_of(r, count)?;
    let trial = winner_of(r, place, count, best.trial)?;
    let ship = place + WINNER_RECORD;
    let packets = ship + HEADER;
    let shipped = play(Settings::factory(), &r[packets..]);
    if let Some(n) = shipped.offence {
        return Err(Reason::ShippingRefused.at(packets + n));
    }
    if shipped.settings != best.settings {
        return Err(Reason::OtherSettings.at(ship));
    }
    Ok(Accepted {
        trial,
        score: best.score,
        settings: best.settings,
    })
}
