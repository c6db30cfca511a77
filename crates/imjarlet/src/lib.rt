// The boundary to C and Rust, the same on every processor: what a caller lends are pointers and
// numbers, what a call answers is a refusal's number, 0 where there is none. Records that are lent
// have fields of fixed width and no holes.
//
//   endpoint  a head at power-up, and the receive call over a controller that the caller lends
//   asking    what a packet would draw, and carrying out a judgement, over what the caller lends
//   encoder   the encoder and the standard shipping list
//   verdict   the answer to a tuning report
//   answer    a refusal's number and a length, from the answers of the crates below
#![tactic(auto)]

mod answer;
mod asking;
mod encoder;
mod endpoint;
mod verdict;

pub use asking::{imjarlet_carry_out, imjarlet_judge};
pub use encoder::{imjarlet_encode, imjarlet_standard_list};
pub use endpoint::{imjarlet_receive, imjarlet_reset};
pub use verdict::{Verdict, imjarlet_check_report};
