// The receive call: it takes bytes until the input ends or one packet is complete, and answers that
// packet.
ghost use Rattle.std.specs.Prelude.{◌≡◌, true, ◌≤◌, length};
ghost use Rattle.packet.specs.Answer.{outcome_of};
ghost use Rattle.command.specs.Controller.{transfer_of, transfer_in_rule};
ghost use Rattle.command.specs.Inner.{settled};
ghost use Rattle.command.specs.Endpoint.{receive_call, after_of};

use crate::carry::carry;
use crate::controller::Controller;
use crate::judgement::judge;
use crate::output::OUTPUT;
use crate::table::Code;
use crate::transfer::HOLD;
use packet::{Progress, Refusal};

// What a call answers.
#[derive(Clone, Copy)]
pub struct Reply {
    pub answer: Result<Progress, Refusal>,
    // Where the packet drew code 03, the byte of its data, in a transfer of the joined data, that is wrong.
    pub wrong: Option<u8>,
}

impl Reply {
    // An answer beside which no byte is wrong.
    fn without_byte(answer: Result<Progress, Refusal>) -> Reply
        ensures { (result.answer ≡ answer) × (result.wrong ≡ None) }
    {
        Reply {
            answer,
            wrong: None,
        }
    }
}

impl Controller {
    // A complete packet is judged, and the judgement carried out.
    fn settle(&mut self, right: bool, taken: usize, out: &mut [u8]) -> Reply
        requires rule { transfer_in_rule (transfer_of self.old.registers) ≡ true }
        requires room { 64 ≤ length out.old }
        ensures { after_of result self.new out.new ≡ settled self.old right taken out.old }
    {
        let header = self.registers.header;
        // How many bytes of the payload are in the hold.
        let n = packet::word(header[4], header[5]).min(HOLD);
        let payload = &self.hold[..n];
        let t = self.registers.transfer();
        let j = judge(self.settings.mode, t, header, right, &self.buffer, payload);
        let length = carry(
            &mut self.settings,
            &mut self.registers,
            &mut self.buffer,
            Code::new(header[1], header[2]),
            payload,
            j,
            out,
        );
        Reply {
            answer: Ok(Progress::Answered { taken, length }),
            wrong: j.wrong(),
        }
    }

    // The call. The arrays are changed where they stand.
    pub fn receive(&mut self, input: &[u8], out: &mut [u8]) -> Reply
        ensures { after_of result self.new out.new ≡ receive_call self.old input.now out.old }
    {
        if out.len() < OUTPUT {
            return Reply::without_byte(Err(Refusal::ShortOutput));
        }
        if !self.in_rule() {
            return Reply::without_byte(Err(Refusal::OutOfRule));
        }
        let r = &mut self.registers;
        let t = packet::receive(
            &mut r.header,
            r.sum,
            r.received as usize,
            &mut self.hold,
            packet::CHECKSUM_FROM,
            input,
        );
        r.sum = t.sum;
        r.received = t.received as u32;
        match t.complete {
            Some(right) => self.settle(right, t.taken, out),
            None => Reply::without_byte(Ok(Progress::Waiting(t.taken))),
        }
    }
}

// An answer, and the controller afterwards.
#[derive(Clone, Copy)]
pub struct Step {
    pub controller: Controller,
    pub answer: Result<Progress, Refusal>,
    // As a reply has it.
    pub wrong: Option<u8>,
}

// The call on a controller by value.
pub fn receive(c: Controller, input: &[u8], out: &mut [u8]) -> Step
    ensures { (outcome_of result.answer ≡ (receive_call c input.now out.old).answer)
        × (result.wrong ≡ (receive_call c input.now out.old).wrong)
        × (result.controller ≡ (receive_call c input.now out.old).controller)
        × (out.new ≡ (receive_call c input.now out.old).output) }
{
    let mut controller = c;
    let reply = controller.receive(input, out);
    Step {
        controller,
        answer: reply.answer,
        wrong: reply.wrong,
    }
}
