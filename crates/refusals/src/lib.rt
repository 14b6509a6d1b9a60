// The refusals of documents 01 and 02: an error enum, whose variants have the documents' numbers.
// A call that may refuse returns a Result with it.
#![tactic(auto)]

ghost use Rattle.std.specs.Prelude.{◌≡◌};
ghost use Rattle.theory_basics.specs.Refusals.{unless};
ghost use Rattle.refusals.specs.Numbers.{number_of, refusal_number};

// A refusal by its name. The sentence of each number stands in docs/CALLS.md.
#[derive(Clone, Copy, Debug, PartialEq, Eq)]
pub enum Refusal {
    EndsEarly = 1,
    UnknownMark = 2,
    BytesAfter = 3,
    Programmes = 4,
    ProgrammeField = 5,
    LayerSize = 6,
    Forecast = 7,
    NotWhole = 8,
    LongFile = 9,
    Sample = 10,
    ShortBuffer = 11,
    NoSamples = 12,
    LateSample = 13,
    TraceLine = 14,
    TraceSlot = 15,
    NoWait = 16,
    Sequence = 17,
    Sz = 18,
    NotPassing = 19,
    Release = 20,
    Slot = 21,
    Fetched = 22,
}

impl Refusal {
    // Its number in the documents.
    pub fn number(self) -> u8
        ensures { result ≡ number_of self }
    {
        self as u8
    }
}

// A refusal, unless the test holds.
pub fn refuse_unless(holds: bool, refusal: Refusal) -> Result<(), Refusal>
    ensures { refusal_number result ≡ unless (number_of refusal) holds }
{
    if holds { Ok(()) } else { Err(refusal) }
}
