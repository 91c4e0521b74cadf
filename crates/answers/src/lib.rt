// Why a call, a read or a stand-alone function is refused, and what a stand-alone function answers to its host.
#![tactic(auto)]

ghost use Rattle.std.specs.Prelude.{◌≡◌};
ghost use Rattle.answers.specs.Answers.{accepted, refused};
ghost use Rattle.answers.specs.Refusals.{coded};
ghost use Rattle.answers.specs.Refusals.{number};

// The reasons, lowest code first: the number of each is the code that a host gets. An accepted call has code 0.
#[derive(Clone, Copy, Debug, PartialEq, Eq)]
pub enum Refusal {
    // A book of another length.
    BookLength = 1,
    // A book that is not sound; not tested for an opening.
    UnsoundBook = 2,
    // No kind or an unknown kind, or a record of another length than its kind has.
    Malformed = 3,
    // A field out of its range, or a recall of a security not in its whole lots.
    OutOfRange = 4,
    // A participant, security or basket that is not set up; in a read, a row not in use.
    NotSetUp = 5,
    // A basket set up again, or a price with another lot.
    SetUpAgain = 6,
    // A day that is not open or after the last one, a quote after today, a settlement before today, a closing not after the
    // settlement, or no next day.
    BadDay = 7,
    // The giver is the taker.
    SameParty = 8,
    // A taker's own request where it accepts that giver automatically.
    Automatic = 9,
    // More than the account or position holds.
    TooMuch = 10,
    // A deposit that takes account plus positions above the greatest nominal.
    TooLarge = 11,
    // No such live request of that owner, or no used exposure of that giver (and taker).
    NoneSuch = 12,
    // A cancel of a request that has settled in part or whole.
    Settled = 13,
    // Too few request rows, or request numbers above the greatest.
    NoRow = 14,
    // A pair that needs an exposure row, and none is free.
    NoExposure = 15,
    // A recall that the substitutes do not cover.
    NotCovered = 16,
}

impl From<Refusal> for u64 {
    ghost from_gives = { λ r code. code ≡ number r };

    fn from(refusal: Refusal) -> u64 {
        refusal as u64
    }
}

// For a host: code 0 and the number asked for, or the code of a refusal and 0.
#[repr(C)]
#[derive(Clone, Copy, Debug, PartialEq, Eq)]
pub struct CodedValue {
    pub code: u64,
    pub value: u64,
}

pub fn accept(value: u64) -> CodedValue
    ensures { result ≡ accepted value }
{
    CodedValue { code: 0, value }
}

pub fn refuse(code: u64) -> CodedValue
    ensures { result ≡ refused code }
{
    CodedValue { code, value: 0 }
}

impl From<Result<u64, Refusal>> for CodedValue {
    ghost from_gives = { λ outcome answer. answer ≡ coded outcome };

    fn from(outcome: Result<u64, Refusal>) -> CodedValue {
        match outcome {
            Ok(value) => accept(value),
            Err(refusal) => refuse(u64::from(refusal)),
        }
    }
}
