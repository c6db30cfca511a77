// A head at power-up, and the receive call over a controller that the caller lends.
ghost use Rattle.std.specs.Prelude.{◌≡◌};
ghost use Rattle.command.specs.Controller.{fresh};
ghost use Rattle.command.specs.Endpoint.{receive_call};
ghost use Rattle.imjarlet.specs.Exports.{Tells, Receives};

use command::Controller;

// Puts a fresh controller where the caller has one, whatever stood there.
pub fn imjarlet_reset(c: &mut Controller) -> u32
    ensures { (result ≡ 0) × (c.new ≡ fresh) }
{
    *c = Controller::fresh();
    0
}

// What tells that no byte is wrong.
const NO_WRONG_BYTE: u64 = u64::MAX;

// The byte that is wrong, as a number of the boundary's width; a record has it in 16 bits.
fn told_byte(wrong: Option<u8>) -> u64
    ensures { Tells wrong result }
{
    wrong.map_or(NO_WRONG_BYTE, u64::from)
}

// Takes bytes until the input ends or one packet is complete. The controller is changed where it stands, its
// settings only where a packet was complete.
pub fn imjarlet_receive(
    c: &mut Controller,
    input: &[u8],
    out: &mut [u8],
    taken: &mut u64,
    size: &mut u64,
    wrong: &mut u64,
) -> u32
    ensures { Receives (receive_call c.old input.now out.old)
        result taken.new size.new wrong.new c.new out.new }
{
    let reply = c.receive(input, out);
    *wrong = told_byte(reply.wrong);
    packet::told(reply.answer, taken, size)
}
