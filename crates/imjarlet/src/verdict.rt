// The answer to a tuning report.
ghost use Rattle.std.specs.Prelude.{◌≡◌};
ghost use Rattle.report.specs.Verdict.{verdict_in};
ghost use Rattle.imjarlet.specs.Exports.{verdict_of, refusal_in, Judges};

use command::Settings;
use report::{Accepted, Refusal};

#[repr(C)]
#[derive(Clone, Copy)]
pub struct Verdict {
    // Where the refusal is; 0 with an accepted report.
    pub place: u64,
    // The trial that the report names; with a refusal 0.
    pub trial: u64,
    // Its score; with a refusal 0.
    pub score: u64,
    // The settings that it ended with; with a refusal the factory values.
    pub settings: Settings,
}

// An answer as numbers: the refusal's number or 0, and the verdict.
fn told(answer: Result<Accepted, Refusal>, verdict: &mut Verdict) -> u32
    ensures { (verdict.new ≡ verdict_of (verdict_in answer)) × (result ≡ refusal_in (verdict_in answer)) }
{
    match answer {
        Ok(accepted) => {
            *verdict = Verdict {
                place: 0,
                trial: accepted.trial as u64,
                score: accepted.score as u64,
                settings: accepted.settings,
            };
            0
        }
        Err(refusal) => {
            *verdict = Verdict {
                place: refusal.place as u64,
                trial: 0,
                score: 0,
                settings: Settings::factory(),
            };
            refusal.reason.number() as u32
        }
    }
}

// Whether the settings that the report ships are those of its best trial.
pub fn imjarlet_check_report(report: &[u8], verdict: &mut Verdict) -> u32
    ensures { Judges report.now result verdict.new }
{
    told(report::check(report), verdict)
}
