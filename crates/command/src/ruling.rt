// A judgement as it is handed out: a record of numbers and one array, which means something whatever
// they are. It says what a packet draws, and keeps what it was judged under, so that it can be carried
// out later.
ghost use Rattle.std.specs.Prelude.{◌≡◌};
ghost use Rattle.command.specs.Ruling.{mask_in, acceptance, wrong_told, kept_of, transfer_of_kept};

use crate::controller::Registers;
use crate::judgement::Judgement;
use crate::settings::Settings;
use crate::transfer::{HOLD, TransferState};

// How a packet with no fault is accepted: its data are held, its write is carried out, or it is a read.
// Numbers and no enum, since a record that is lent may have any.
pub const HOLDS: u16 = 1;

pub const WRITES: u16 = 2;

pub const READS: u16 = 3;

// What says that no byte is wrong.
pub const NO_WRONG_BYTE: u16 = 0xFFFF;

// What a packet was judged under: the display mode, and the open transfer, none where `active` is 0.
#[repr(C)]
#[derive(Clone, Copy)]
pub struct Kept {
    // How many bytes of the transfer were held: the first of the data.
    pub held: u16,
    pub mode: u8,
    pub active: u8,
    pub cmd1: u8,
    pub cmd2: u8,
}

impl Kept {
    pub(crate) fn of(s: Settings, r: Registers) -> Kept
        ensures { result ≡ kept_of s r }
    {
        Kept {
            held: r.held,
            mode: s.mode,
            active: r.active,
            cmd1: r.cmd1,
            cmd2: r.cmd2,
        }
    }

    // The open transfer, as `Registers::transfer` has it: the two records have the layouts that C knows.
    pub(crate) fn transfer(self) -> TransferState
        ensures { result ≡ transfer_of_kept self }
    {
        TransferState {
            active: self.active,
            cmd1: self.cmd1,
            cmd2: self.cmd2,
            held: self.held as usize,
        }
    }
}

// The numbers of a judgement. Each field is as wide as the room up to the next one: a record that is
// lent has no holes.
#[repr(C)]
#[derive(Clone, Copy)]
pub struct Ruling {
    // The error codes, bit n for code n; 0 where the packet has no fault.
    pub codes: u16,
    // How it is accepted then.
    pub accepts: u16,
    // With code 03, the byte that is wrong.
    pub wrong: u16,
    // How many bytes the joined data have.
    pub count: u16,
    // The packet's CMD1 and CMD2, which the response repeats.
    pub cmd1: u8,
    pub cmd2: u8,
    pub kept: Kept,
}

impl Ruling {
    // The ruling of no packet: "error" with no code at all, which is never carried out.
    pub(crate) const NONE: Ruling = Ruling {
        codes: 0,
        accepts: 0,
        wrong: 0,
        count: 0,
        cmd1: 0,
        cmd2: 0,
        kept: Kept {
            held: 0,
            mode: 0,
            active: 0,
            cmd1: 0,
            cmd2: 0,
        },
    };
}

#[repr(C)]
#[derive(Clone, Copy)]
pub struct JudgementRecord {
    pub ruling: Ruling,
    // The joined data: those that were held, and behind them those that the packet brings.
    pub joined: [u8; HOLD],
}

impl JudgementRecord {
    // What stands in a record before a call: zeros.
    pub(crate) const NONE: JudgementRecord = JudgementRecord {
        ruling: Ruling::NONE,
        joined: [0; HOLD],
    };
}

// The error codes of a judgement, as one number.
pub(crate) fn codes(j: Judgement) -> u16
    ensures { result ≡ mask_in j }
{
    match j {
        Judgement::Error(k) => k.mask(),
        _ => 0,
    }
}

// How the packet is accepted.
pub(crate) fn accepts(j: Judgement) -> u16
    ensures { result ≡ acceptance j }
{
    match j {
        Judgement::Error(_) => 0,
        Judgement::Hold(_) => HOLDS,
        Judgement::Write(_) => WRITES,
        Judgement::Read(_) => READS,
    }
}

// The byte that is wrong, as a number.
pub(crate) fn told_byte(wrong: Option<u8>) -> u16
    ensures { result ≡ wrong_told wrong }
{
    wrong.map_or(NO_WRONG_BYTE, u16::from)
}
