// The refusals of a report.
ghost use Rattle.std.specs.Prelude.{◌≡◌};
ghost use Rattle.report.specs.Verdict.{number_of};

// Why a report is refused, by document 01's numbers.
#[derive(Clone, Copy, PartialEq, Eq)]
pub enum Reason {
    // More bytes than the longest report has.
    TooLong = 10,
    // A record is due, and fewer bytes are left than its header or body needs.
    RecordCutShort = 11,
    // Another kind of record is due.
    OtherKindDue = 12,
    // The body is not as long as its kind has it.
    WrongBodyLength = 13,
    WrongVersion = 14,
    NoTrials = 15,
    // The winner is not below the trial count.
    NoSuchTrial = 16,
    // The winner is not the first of the lowest-scored trials.
    NotTheBest = 17,
    // The shipping packets are not each acknowledged, or something is left half sent.
    ShippingRefused = 18,
    // The shipping packets leave other settings than the winner did.
    OtherSettings = 19,
    // Bytes stand after the shipping packets.
    BytesAfterEnd = 20,
}

impl Reason {
    // Document 01's number of the refusal.
    pub fn number(self) -> u8
        ensures { result ≡ number_of self }
    {
        self as u8
    }

    // The refusal for this reason, at a place of the report.
    pub(crate) fn at(self, place: usize) -> Refusal
        ensures { result ≡ record { reason = self; place = place } }
    {
        Refusal {
            reason: self,
            place,
        }
    }
}

// Why a report is refused, and at which of its bytes.
#[derive(Clone, Copy, PartialEq, Eq)]
pub struct Refusal {
    pub reason: Reason,
    pub place: usize,
}
