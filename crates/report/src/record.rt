// Records of a report: body length (2 bytes), kind (2 bytes), body.
ghost use Rattle.std.specs.Prelude.{◌≡◌, ◌+◌, ◌<◌, ◌≤◌, length, take, drop};
ghost use Rattle.packet.specs.Number.{value_of};
ghost use Rattle.report.specs.Record.{sized};
ghost use Rattle.report.specs.Inner.{kind_number, RecordAt};

use crate::refusal::{Reason, Refusal};

// The kinds of record, by their numbers.
#[derive(Clone, Copy)]
pub(crate) enum Kind {
    Head = 1,
    Trial = 2,
    Winner = 3,
    Shipping = 4,
}

// The number of kind 4, whose body is the shipping packets.
pub const SHIPPING: usize = Kind::Shipping as usize;

// The bytes in front of a body.
pub const HEADER: usize = 4;

impl Kind {
    fn number(self) -> usize
        ensures { result ≡ kind_number self }
    {
        self as usize
    }

    // Whether a body of this kind may have n bytes.
    fn has_size(self, n: usize) -> bool
        ensures { result ≡ sized (kind_number self) n }
    {
        match self {
            Kind::Head => n == 4,
            Kind::Trial => 4 <= n,
            Kind::Winner => n == 2,
            Kind::Shipping => true,
        }
    }
}

// The number in two bytes. It and the next stand here and not in `packet`, where a public function at any
// place of a slice would have to refuse.
pub(crate) fn word_at(r: &[u8], at: usize) -> usize
    requires { at + 2 ≤ length r.now }
    ensures { (result ≡ value_of (take 2 (drop at r.now))) × (result < 65536) }
{
    packet::word(r[at], r[at + 1])
}

// The number in four bytes.
pub(crate) fn long_at(r: &[u8], at: usize) -> usize
    requires { at + 4 ≤ length r.now }
    ensures { result ≡ value_of (take 4 (drop at r.now)) }
{
    let low = word_at(r, at);
    let high = word_at(r, at + 2);
    low + 65536 * high
}

// The record of this kind that is due at a place: the length of its body. The place comes beside the report,
// since a refusal tells it.
pub(crate) fn record_at(r: &[u8], at: usize, kind: Kind) -> Result<usize, Refusal>
    requires { at ≤ length r.now }
    ensures { RecordAt r.now (kind_number kind) at result }
{
    let Some(header) = r.get(at..at + HEADER) else {
        return Err(Reason::RecordCutShort.at(at));
    };
    let n = word_at(header, 0);
    let k = word_at(header, 2);
    let start = at + HEADER;
    let Some(_) = r.get(start..start + n) else {
        return Err(Reason::RecordCutShort.at(at));
    };
    if k != kind.number() {
        return Err(Reason::OtherKindDue.at(at));
    }
    if !kind.has_size(n) {
        return Err(Reason::WrongBodyLength.at(at));
    }
    Ok(n)
}
