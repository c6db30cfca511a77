// The packet layer: bytes to packets and packets to bytes. What a packet means is not known here.
#![tactic(auto)]

// Numbers of two bytes.
mod number;

// A packet's sizes, types and flags.
mod packet;

// The next whole packet of a slice.
mod stream;

// Runs of bytes: summed, and stored as far as there is room.
mod bytes;

// Takes bytes from a stream, in pieces of any length, until one packet is complete.
mod receiver;

// Writes a packet to a lent buffer.
mod writer;

// What a receive call answers.
mod answer;

pub use answer::{Progress, Refusal, told};
pub use bytes::store;
pub use number::word;
pub use packet::{
    BEGINNING, ERROR, FRAME, HEADER, HOST_READ, HOST_WRITE, INTERMEDIATE, LAST, READ_RESPONSE,
    WHOLE, WRITE_RESPONSE,
};
pub use receiver::{CHECKSUM_FROM, Taken, packet_in_rule, receive};
pub use stream::{WholePacket, next_packet};
pub use writer::{Head, write_packet};
