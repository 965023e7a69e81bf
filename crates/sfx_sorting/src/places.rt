// What stands in a place: a background or none, or a number.
ghost use Rattle.std.specs.Prelude.{◌≡◌, ℕ, Option, map};
ghost use Rattle.sfx_sorting.specs.Code.{number_in, numbered};

use crate::background::Background;

// The number in a place without a background; one above it serves too.
pub const NO_BACKGROUND: usize = 4;

pub trait Place: Copy {
    ghost held: { Self → Option ℕ };

    fn background(self) -> Option<Background>
        ensures { number_in result ≡ held self };
}

impl Place for Option<Background> {
    ghost held = { number_in };

    fn background(self) -> Option<Background> {
        self
    }
}

impl Place for usize {
    ghost held = { numbered };

    fn background(self) -> Option<Background> {
        Background::numbered(self)
    }
}

impl Background {
    // The background of a number, if it has one.
    pub fn numbered(number: usize) -> Option<Background>
        ensures { number_in result ≡ numbered number }
    {
        if number < NO_BACKGROUND {
            return Some(Background { number });
        }
        None
    }

    // Those of four places.
    pub fn in_places<P: Place>(places: [P; 4]) -> [Option<Background>; 4]
        ensures { map number_in result ≡ map P.held places }
    {
        [
            places[0].background(),
            places[1].background(),
            places[2].background(),
            places[3].background(),
        ]
    }
}
