// An answer as numbers, for callers that know no enum.
ghost use Rattle.std.specs.Prelude.{◌≡◌};
ghost use Rattle.command.specs.Encoder.{refusal_of, length_of};
ghost use Rattle.imjarlet.specs.Exports.{outcome_in};

// The refusal's number or 0, and the length, 0 with a refusal.
pub(crate) fn told(answer: Result<usize, u32>, size: &mut u64) -> u32
    ensures { (result ≡ refusal_of (outcome_in answer)) × (size.new ≡ length_of (outcome_in answer)) }
{
    *size = answer.unwrap_or(0) as u64;
    answer.err().unwrap_or(0)
}
