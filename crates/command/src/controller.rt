// The controller: the settings, the open transfer and the packet that is coming in. Firmware lends
// it, so it is made of numbers alone and means something whatever they are.
ghost use Rattle.std.specs.Prelude.{◌≡◌, ◌<◌};
ghost use Rattle.command.specs.Controller.{fresh as fresh_of, transfer_of, in_rule};
ghost use Rattle.command.specs.Inner.{with_transfer};

use crate::rules::settings_in_rule;
use crate::settings::Settings;
use crate::transfer::{HOLD, TransferState};
use packet::HEADER;

// The packet that is coming in, and the open transfer, but for their bytes. Each field is as wide as
// the room up to the next one: a record that is lent has no holes.
#[repr(C)]
#[derive(Clone, Copy, PartialEq, Eq)]
pub struct Registers {
    // How many bytes of the packet have come in.
    pub received: u32,
    // How many bytes of the transfer are held.
    pub held: u16,
    // The transfer: none is open where `active` is 0. Its command's bytes.
    pub active: u8,
    pub cmd1: u8,
    pub cmd2: u8,
    // The header bytes of the packet that is coming in; between two packets, those of the last one.
    pub header: [u8; HEADER],
    // The sum of the bytes received of it, modulo 256. It begins anew with a packet's first byte.
    pub sum: u8,
}

impl Registers {
    // The open transfer.
    pub(crate) fn transfer(self) -> TransferState
        ensures { result ≡ transfer_of self }
    {
        TransferState {
            active: self.active,
            cmd1: self.cmd1,
            cmd2: self.cmd2,
            held: self.held as usize,
        }
    }

    // Puts this transfer in place of the open one. The packet that is coming in stays.
    pub(crate) fn set_transfer(&mut self, t: TransferState)
        requires { t.held < 65536 }
        ensures { self.new ≡ with_transfer self.old t }
    {
        self.held = t.held as u16;
        self.active = t.active;
        self.cmd1 = t.cmd1;
        self.cmd2 = t.cmd2;
    }
}

#[repr(C)]
#[derive(Clone, Copy, PartialEq, Eq)]
pub struct Controller {
    pub settings: Settings,
    pub registers: Registers,
    // The held bytes of the open transfer.
    pub buffer: [u8; HOLD],
    // The payload of the packet that is coming in, as far as there is room.
    pub hold: [u8; HOLD],
}

impl Controller {
    pub(crate) const FRESH: Controller = Controller {
        settings: Settings::FACTORY,
        registers: Registers {
            received: 0,
            held: 0,
            active: 0,
            cmd1: 0,
            cmd2: 0,
            header: [0; HEADER],
            sum: 0,
        },
        buffer: [0; HOLD],
        hold: [0; HOLD],
    };

    // A head at power-up: factory values, nothing half received and no transfer open.
    #[tactic(auto, unfolding(crate::specs::Settings::factory, crate::specs::Controller::zeros))]
    pub fn fresh() -> Controller
        ensures { result ≡ fresh_of }
    {
        Controller::FRESH
    }

    // What refusal 3 lets pass: it does not look at the arrays.
    #[tactic(auto, unfolding(crate::specs::Controller::parts_in_rule, crate::specs::Controller::transfer_in_rule))]
    pub(crate) fn in_rule(&self) -> bool
        ensures { result ≡ in_rule self.now }
    {
        let r = self.registers;
        settings_in_rule(self.settings)
            && r.transfer().in_rule()
            && packet::packet_in_rule(r.header, r.received as usize)
    }
}
