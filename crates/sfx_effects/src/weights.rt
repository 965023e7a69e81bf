// The weights of a line's blends.
ghost use Rattle.std.specs.Prelude.{◌≤◌};

// As the line's reading counts them: at most 31, that of white and black at most 16.
#[derive(Clone, Copy)]
pub struct Weights {
    pub eva: u16,
    pub evb: u16,
    pub evy: u16,
    pub ghost eva_bound: { eva ≤ 31 },
    pub ghost evb_bound: { evb ≤ 31 },
    pub ghost evy_bound: { evy ≤ 16 },
}
