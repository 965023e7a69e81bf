// A background by its number.
ghost use Rattle.std.specs.Prelude.{◌<◌};

#[derive(Clone, Copy)]
pub struct Background {
    pub number: usize,
    pub ghost below: { number < 4 },
}
