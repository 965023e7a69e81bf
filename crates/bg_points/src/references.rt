// The reference numbers of a draw (gpu/mod.rs, `BgAffine`).
ghost use Rattle.std.specs.Prelude.{◌≡◌};
ghost use Rattle.bg_points.specs.References.{in_ranges};

use signed::in_range;

// The four reference numbers, background 2's and background 3's.
#[derive(Clone, Copy)]
pub struct References {
    pub x2: i32,
    pub y2: i32,
    pub x3: i32,
    pub y3: i32,
}

impl References {
    // Whether each is in range.
    #[tactic(auto, unfolding(crate::specs::References::in_ranges))]
    pub fn in_ranges(self) -> bool
        ensures { result ≡ in_ranges self }
    {
        in_range(self.x2) & in_range(self.y2) & in_range(self.x3) & in_range(self.y3)
    }
}
