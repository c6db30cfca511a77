// The receive call on a lent device, and on one by value, which is handed back.
ghost use Rattle.std.specs.Prelude.{◌≡◌, ◌≤◌, length};
ghost use Rattle.packet.specs.Answer.{outcome_of};
ghost use Rattle.packet.specs.Writer.{written};
ghost use Rattle.dlpc200.specs.Device.{device_of, receiver_of};
ghost use Rattle.dlpc200.specs.Judgement.{judge, states_after, arrived_of};
ghost use Rattle.dlpc200.specs.Endpoint.{receive_call};
ghost use Rattle.dlpc200.specs.Response.{response};

use crate::device::Device;
use crate::judgement::Arrived;
use crate::response::respond;
use packet::{Progress, Refusal};

// An output shorter than this is refused.
const OUTPUT: usize = 64;

// An answer, and the device afterwards.
#[derive(Clone, Copy)]
pub struct Step {
    pub device: Device,
    pub answer: Result<Progress, Refusal>,
}

impl Device {
    // Judges the packet that is complete, its checksum right or not, answers it and carries its
    // command out. The result is how long the response is.
    #[tactic(auto, unfolding(crate::specs::Response::response))]
    fn answer(&mut self, right: bool, out: &mut [u8]) -> usize
        requires { 64 ≤ length out.old }
        ensures { let packet = arrived_of self.old.header self.old.hold right in
            let drawn = response self.old.states packet (judge packet) in
            (result ≡ length drawn)
            × (self.new ≡ device_of (states_after self.old.states (judge packet)) (receiver_of self.old))
            × (out.new ≡ written drawn out.old) }
    {
        let packet = Arrived::new(self.header, self.hold, right);
        let judged = packet.judge();
        let length = respond(out, packet.cmd1, self.states, judged);
        if let Ok(command) = judged {
            self.states.park = command.park(self.states.park);
        }
        length
    }

    // Takes bytes until the input ends or one packet is complete.
    #[tactic(auto, unfolding(crate::specs::Endpoint::judged_in, crate::specs::Endpoint::response_in, crate::specs::Endpoint::receive_call))]
    pub fn receive(&mut self, input: &[u8], out: &mut [u8]) -> Result<Progress, Refusal>
        ensures { (outcome_of result ≡ (receive_call self.old input.now out.old).answer)
            × (self.new ≡ (receive_call self.old input.now out.old).device)
            × (out.new ≡ (receive_call self.old input.now out.old).output) }
    {
        if out.len() < OUTPUT {
            return Err(Refusal::ShortOutput);
        }
        if !self.in_rule() {
            return Err(Refusal::OutOfRule);
        }
        let t = self.take(input);
        let Some(right) = t.complete else {
            return Ok(Progress::Waiting(t.taken));
        };
        let length = self.answer(right, out);
        Ok(Progress::Answered {
            taken: t.taken,
            length,
        })
    }
}

// `Device::receive` for a caller that hands the device over and gets it back.
pub fn receive(d: Device, input: &[u8], out: &mut [u8]) -> Step
    ensures { (outcome_of result.answer ≡ (receive_call d input.now out.old).answer)
        × (result.device ≡ (receive_call d input.now out.old).device)
        × (out.new ≡ (receive_call d input.now out.old).output) }
{
    let mut device = d;
    let answer = device.receive(input, out);
    Step { device, answer }
}
