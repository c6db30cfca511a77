// The line of the checking program: verdict, then either trial number and score, or refusal number
// and place, in decimal.
ghost use Rattle.std.specs.Prelude.{◌≡◌, ◌++◌, ◌+◌, ◌≤◌, length, Result, Ok, Err, refl};
ghost use Rattle.std.proofs.lemmas.List.Edits.{sets};
ghost use Rattle.packet.specs.Writer.{written};
ghost use Rattle.report.specs.Line.{decimal, sentence, line_of};
ghost use Rattle.report.specs.Report.{Verdict, Refused};
ghost use Rattle.report.specs.Verdict.{verdict_in, verdict_told};
ghost use Rattle.report.specs.declared.verdict.Accepted.{Accepted};

use crate::refusal::Refusal;
use crate::verdict::Accepted;

// Room for the longest line: at most 22 bytes of words, two numbers and the end.
pub const LINE: usize = 64;

// The most digits that a number has.
const DIGITS: usize = 20;

// A refusal as a line tells it, whatever number it is.
#[derive(Clone, Copy, PartialEq, Eq)]
pub struct Told {
    pub number: u8,
    pub place: usize,
}

// A refusal that a line can tell.
pub trait Tells: Sized {
    // The verdict that an answer with such a refusal says.
    ghost verdict: { Result Accepted Self → Verdict };

    fn told(self) -> Told
        ensures { verdict (Err self) ≡ Refused result.number result.place };

    // A yes says the same, whatever the refusals are.
    ghost accepts: { (yes : Accepted) → verdict (Ok yes) ≡ verdict_in (Ok yes) };
}

impl Tells for Refusal {
    ghost verdict = { verdict_in };

    ghost accepts = { λ _. refl };

    fn told(self) -> Told {
        Told {
            number: self.reason.number(),
            place: self.place,
        }
    }
}

impl Tells for Told {
    ghost verdict = { verdict_told };

    ghost accepts = { λ _. refl };

    fn told(self) -> Self {
        self
    }
}

// The digits of a number, put at the end of an array. Not by `write!`: what that writes is promised
// only where it answers `Ok`, and no contract says that it does.
fn digits_of(n: usize, room: &mut [u8; DIGITS]) -> &[u8]
    ensures { result.now ≡ decimal n }
{
    let mut from = DIGITS - 1;
    let mut left = n;
    while left >= 10 {
        room[from] = b'0' + (left % 10) as u8;
        left /= 10;
        from -= 1;
    }
    room[from] = b'0' + left as u8;
    &room[from..]
}

// Puts text at a place; the place after it.
// No struct of `out` and `at`: each method's contract would have to say that `out` is still the same.
fn put(out: &mut [u8], at: usize, text: &[u8]) -> usize
    requires { at + length text.now ≤ length out.old }
    ensures { (result ≡ at + length text.now) × (out.new ≡ sets out.old at text.now) }
{
    packet::store(out, at, text);
    at + text.len()
}

// Puts a number after its name.
fn put_number(out: &mut [u8], at: usize, name: &[u8], n: usize) -> usize
    requires { at + length name.now + 20 ≤ length out.old }
    ensures { (result ≡ at + length (name.now ++ decimal n)) × (out.new ≡ sets out.old at (name.now ++ decimal n)) }
{
    let after = put(out, at, name);
    let mut room = [0; DIGITS];
    put(out, after, digits_of(n, &mut room))
}

// Two numbers, each after its name, and the end of the line.
fn put_sentence(out: &mut [u8], first: &[u8], m: usize, second: &[u8], n: usize) -> usize
    requires { (64 ≤ length out.old) × (length first.now + length second.now ≤ 22) }
    ensures { (result ≡ length (sentence first.now m second.now n)) × (out.new ≡ written (sentence first.now m second.now n) out.old) }
{
    let middle = put_number(out, 0, first, m);
    let last = put_number(out, middle, second, n);
    put(out, last, b"\n")
}

// Writes the line of a refusal with this number, whatever number it is.
#[tactic(auto, unfolding(crate::specs::Line::line_of, crate::specs::Line::text_of))]
pub fn write_refusal(out: &mut [u8; LINE], number: u8, place: usize) -> usize
    ensures { (result ≡ length (line_of (Refused number place))) × (out.new ≡ written (line_of (Refused number place)) out.old) }
{
    put_sentence(out, b"refused ", usize::from(number), b" at ", place)
}

// Writes the line of an answer to the start of out, and says how long it is. The rest of out stays.
pub fn write_line<R: Tells>(out: &mut [u8; LINE], answer: Result<Accepted, R>) -> usize
    ensures { (result ≡ length (line_of (R.verdict answer))) × (out.new ≡ written (line_of (R.verdict answer)) out.old) }
{
    match answer {
        Ok(yes) => put_sentence(out, b"accepted trial ", yes.trial, b" score ", yes.score),
        Err(no) => {
            let Told { number, place } = no.told();
            write_refusal(out, number, place)
        }
    }
}
