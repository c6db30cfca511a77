// The DLPC200 on its SPI port (request 1): the extended packets of section 6 of source document
// 000, for the commands 0005, 0006, 0015, 0016, 0017, 0029 and 002A.
//
//   header     the layout of a packet, and the values of CMD1, CMD2 and CMD4
//   table      the commands, their IDs and their CMD1
//   states     the states that the commands read
//   status     the faults of a packet, and the two status bytes of its response
//   judgement  how a complete packet is judged
//   response   writing the response
//   device     the current packet and the states; taking packets from a stream
//   endpoint   the receive call, and what a command changes
//   exports    the calls for C and Rust
#![tactic(auto)]

mod device;
mod endpoint;
mod exports;
mod header;
mod judgement;
mod response;
mod states;
mod status;
mod table;

pub use device::Device;
pub use endpoint::{Step, receive};
pub use exports::{dlpc200_faults, dlpc200_receive, dlpc200_reset};
pub use states::States;
pub use status::fault_count;
