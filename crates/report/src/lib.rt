// The report checker: whether the settings that a tuning report ships are those of its best trial.
// Every answer is the verdict of specs/Report.antt, and demand 3 (specs/Claim.antt) holds of it.
//   refusal  why a report is refused, and where
//   record   the record that is due at a place, and the refusals 11 to 13
//   head     kind 1: the trial count
//   trials   kind 2: each trial played, and the first of the lowest-scored
//   end      kinds 3 and 4: the winner, and nothing after the shipping packets
//   verdict  the yes or the no: `check`
//   line     an answer as the checking program's line: `write_line`, of that one or of one whose refusal has
//            any number (`Told`), and `write_refusal`, of a refusal alone
#![tactic(auto)]

mod end;
mod head;
mod line;
mod record;
mod refusal;
mod trials;
mod verdict;

pub use head::LONGEST;
pub use line::{LINE, Tells, Told, write_line, write_refusal};
pub use record::{HEADER, SHIPPING};
pub use refusal::{Reason, Refusal};
pub use verdict::{Accepted, check};
