// The command endpoint of a projector head, over the crate packet: the nine commands and their rules,
// how a complete packet is judged, what it changes and the response it draws, and the calls that
// receive, play and encode packets. Every call answers on every input and controller.
#![tactic(auto)]

// The commands: the table, the settings, which values are allowed, and a command's data as bytes
// (data) and as values (value).
mod data;
mod rules;
mod settings;
mod table;
mod value;

// One complete packet: the open transfer, the first group of faults, the judgement, carrying it out,
// and the response, which goes to a lent output. A judgement that is handed out is a ruling.
mod carry;
mod faults;
mod judgement;
mod output;
mod response;
mod ruling;
mod transfer;

// The head, and the calls: receive; judge a packet, and carry out the judgement; play, encode and the
// standard list.
mod asking;
mod carrying;
mod controller;
mod encoder;
mod endpoint;
mod player;

// The head and its calls.
pub use asking::{JudgeRefusal, judge_packet};
pub use carrying::{CarryOutRefusal, CarryStep, carry_out};
pub use controller::{Controller, Registers};
pub use encoder::{EncodeRefusal, LIST_OUTPUT, encode, standard_list};
pub use endpoint::{Reply, Step, receive};
pub use output::OUTPUT;
pub use player::{Played, play};
pub use ruling::{HOLDS, JudgementRecord, Kept, NO_WRONG_BYTE, READS, Ruling, WRITES};
pub use transfer::HOLD;

// The commands and their values.
pub use settings::{
    DisplaySetting, Drive, LedCurrent, Microseconds, PatternSequence, Settings, StaticColour,
    VideoInput, VideoMode, value_of,
};
pub use table::Command;
pub use value::Value;
