// How a complete packet is judged.
ghost use Rattle.std.specs.Prelude.{◌≡◌};
ghost use Rattle.dlpc200.specs.Judgement.{arrived_of, faults_of, judge as judge_of, wrong_cmd1, wrong_size};

use crate::header::{DATA_LIMIT, EXTENDED, HOLD, ID_SIZE, ONLY, READ, WRITE};
use crate::status::Faults;
use crate::table::Command;
use packet::HEADER;

// A complete packet, as far as it is judged; CMD3 is not.
#[derive(Clone, Copy)]
pub(crate) struct Arrived {
    pub cmd1: u8,
    pub cmd2: u8,
    pub cmd4: u8,
    // How many data bytes it has.
    pub size: usize,
    // Whether its checksum was right.
    pub right: bool,
    // The command of its ID, if it has an ID and that is in the table.
    pub command: Option<Command>,
}

impl Arrived {
    // The packet of this header and these first data bytes, its checksum right or not.
    #[tactic(auto, unfolding(crate::specs::Judgement::command_in))]
    pub(crate) fn new(header: [u8; HEADER], hold: [u8; HOLD], right: bool) -> Arrived
        ensures { result ≡ arrived_of header hold right }
    {
        let size = packet::word(header[4], header[5]);
        let command = if size < ID_SIZE {
            None
        } else {
            Command::find(packet::word(hold[0], hold[1]))
        };
        Arrived {
            cmd1: header[0],
            cmd2: header[1],
            cmd4: header[3],
            size,
            right,
            command,
        }
    }

    // CMD1 is neither 02 nor 04, or the wrong one for the packet's command.
    #[tactic(auto, unfolding(crate::specs::Judgement::wrong_cmd1))]
    fn wrong_cmd1(self) -> bool
        ensures { result ≡ wrong_cmd1 self.command self.cmd1 }
    {
        let neither = self.cmd1 != WRITE && self.cmd1 != READ;
        neither || self.command.is_some_and(|c| self.cmd1 != c.cmd1())
    }

    // The data are of the wrong size: under two or over 504 bytes, or not the command's size.
    #[tactic(auto, unfolding(crate::specs::Judgement::wrong_size))]
    fn wrong_size(self) -> bool
        ensures { result ≡ wrong_size self.command self.size }
    {
        let outside = !(ID_SIZE..=DATA_LIMIT).contains(&self.size);
        outside || (self.command.is_some() && self.size != ID_SIZE)
    }

    // Every fault that holds of the packet.
    #[tactic(auto, unfolding(crate::specs::Judgement::faults_of))]
    fn faults(self) -> Faults
        ensures { result ≡ faults_of self }
    {
        Faults {
            checksum: !self.right,
            cmd1: self.wrong_cmd1(),
            cmd2: self.cmd2 != EXTENDED,
            cmd4: self.cmd4 != ONLY,
            size: self.wrong_size(),
        }
    }

    // The command to carry out, or the faults with which the packet failed: with none of them its
    // command is unknown.
    #[tactic(auto, unfolding(crate::specs::Judgement::judge))]
    pub(crate) fn judge(self) -> Result<Command, Faults>
        ensures { result ≡ judge_of self }
    {
        let faults = self.faults();
        if faults.any() {
            return Err(faults);
        }
        self.command.ok_or(Faults::default())
    }
}
