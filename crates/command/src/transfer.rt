// The open transfer: numbers alone, which mean something whatever they are.
ghost use Rattle.std.specs.Prelude.{◌≡◌};
ghost use Rattle.command.specs.Controller.{held_in, transfer_in_rule};
ghost use Rattle.command.specs.Inner.{is_open_in};

use crate::table::Command;

// How many payload bytes are held, of a transfer and of the packet that is coming in.
pub const HOLD: usize = 1024;

// An open transfer: its command's bytes, and how many bytes of it are held. None is open where
// `active` is 0. No `Option`: the registers and a judgement have these four numbers, with any content, and
// `transfer_of`, `transfer_in_rule` and `transfer_state_after` of the definitions speak of all four, also
// where none is open.
#[derive(Clone, Copy)]
pub struct TransferState {
    pub active: u8,
    pub cmd1: u8,
    pub cmd2: u8,
    pub held: usize,
}

impl TransferState {
    pub(crate) const NONE: TransferState = TransferState {
        active: 0,
        cmd1: 0,
        cmd2: 0,
        held: 0,
    };

    // A transfer is open.
    pub(crate) fn is_open(self) -> bool
        ensures { result ≡ is_open_in self }
    {
        self.active != 0
    }

    // How many bytes are held.
    pub(crate) fn held(self) -> usize
        ensures { result ≡ held_in self }
    {
        if self.is_open() { self.held } else { 0 }
    }

    // No more bytes are held than the hold has room for, and an open transfer is for a command of
    // the table. A call tests this once, and the functions inside require it. A type for a transfer
    // that has been tested would leave as many clauses: where the controller is lent, that the tested
    // transfer is still its own.
    #[tactic(auto, unfolding(crate::specs::Controller::transfer_in_rule))]
    pub(crate) fn in_rule(self) -> bool
        ensures { result ≡ transfer_in_rule self }
    {
        if HOLD < self.held {
            return false;
        }
        if !self.is_open() {
            return true;
        }
        Command::find(self.cmd1, self.cmd2).is_some()
    }
}
