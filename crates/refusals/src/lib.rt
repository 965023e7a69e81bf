// Why a call is refused, and the number that it then returns (document 01, "Numbers a draw may return"; document 02, W-202 and
// W-205).

#![tactic(auto)]

ghost use Rattle.std.specs.Prelude.{◌≡◌};
ghost use Rattle.refusals.specs.Refusal.{refusal_number, outcome_number};

#[derive(Clone, Copy, Debug, PartialEq, Eq)]
pub enum Refusal {
    BadReading,
    BadLength,
    BadLine,
    BadMode,
    BadBldy,
    BadReference,
    BadEntry,
    BadColumn,
    BadPage,
    OddAddress,
}

impl From<Refusal> for u32 {
    ghost from_gives = { λ refusal number. number ≡ refusal_number refusal };

    #[tactic(auto, unfolding(crate::specs::Refusal::refusal_number))]
    fn from(refusal: Refusal) -> u32 {
        match refusal {
            Refusal::BadReading => 1,
            Refusal::BadLength => 2,
            Refusal::BadLine => 3,
            Refusal::BadMode => 4,
            Refusal::BadBldy => 5,
            Refusal::BadReference => 6,
            Refusal::BadEntry => 7,
            Refusal::BadColumn => 8,
            Refusal::BadPage => 9,
            Refusal::OddAddress => 11,
        }
    }
}

// What a call returns: 0 where it is accepted, else the refusal's number.
#[tactic(auto, unfolding(crate::specs::Refusal::outcome_number))]
pub fn number(outcome: Result<(), Refusal>) -> u32
    ensures { result ≡ outcome_number outcome }
{
    match outcome {
        Ok(()) => 0,
        Err(refusal) => u32::from(refusal),
    }
}
