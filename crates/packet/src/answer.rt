// What a receive call answers, on every kind of head.
ghost use Rattle.packet.specs.Answer.{outcome_of, Told};

// What a call came to that is not refused.
#[derive(Clone, Copy)]
pub enum Progress {
    // The input ended before a packet did; all of it was taken.
    Waiting(usize),
    // One packet is complete.
    Answered {
        // How many bytes of the input were taken.
        taken: usize,
        // How long the response is that stands at the output's start.
        length: usize,
    },
}

// Why a call is refused; each refusal has its number.
#[derive(Clone, Copy, PartialEq, Eq)]
pub enum Refusal {
    // The output is too short.
    ShortOutput = 1,
    // The head's memory is out of rule.
    OutOfRule = 3,
}

// An answer as numbers, for callers that know no enum: the refusal's number or 0, the bytes taken,
// and the response's length, 0 where there is none.
pub fn told(answer: Result<Progress, Refusal>, taken: &mut u64, size: &mut u64) -> u32
    ensures { Told (outcome_of answer) result taken.new size.new }
{
    *taken = 0;
    *size = 0;
    match answer {
        Ok(Progress::Waiting(n)) => {
            *taken = n as u64;
            0
        }
        Ok(Progress::Answered { taken: n, length }) => {
            *taken = n as u64;
            *size = length as u64;
            0
        }
        Err(refusal) => refusal as u32,
    }
}
