// The reading that a draw is asked for (document 01, "Two readings"): R goes by the Rust, H by the hardware's notes.
ghost use Rattle.std.specs.Prelude.{◌≡◌, ◌<◌, ◌≤◌};
ghost use Rattle.regs.specs.Reading.{reading_of, try_reading, counted};

use refusals::Refusal;

#[derive(Clone, Copy)]
pub enum Reading {
    R,
    H,
}

impl TryFrom<u32> for Reading {
    type Error = Refusal;

    ghost try_from_gives = { λ number reading. reading ≡ try_reading number };

    #[tactic(auto, unfolding(crate::specs::Reading::try_reading))]
    fn try_from(number: u32) -> Result<Reading, Refusal> {
        if number < 2 {
            return Ok(Reading::from(number));
        }
        Err(Refusal::BadReading)
    }
}

impl Reading {
    // The reading of a number that is known to be one; another is refused by `try_from`.
    #[tactic(auto, unfolding(crate::specs::Reading::reading_of))]
    pub fn from(number: u32) -> Reading
        requires { number < 2 }
        ensures { result ≡ reading_of number }
    {
        match number {
            0 => Reading::R,
            _ => Reading::H,
        }
    }

    // A weight in sixteenths, as this reading counts it.
    #[tactic(auto, unfolding(crate::specs::Reading::counted))]
    pub fn counted(self, weight: u16) -> u16
        ensures { (result ≡ counted self weight) × (result ≤ weight) }
    {
        match self {
            Reading::R => weight,
            Reading::H => weight.min(16),
        }
    }
}
