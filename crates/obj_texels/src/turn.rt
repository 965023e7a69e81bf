// What a line of an affine sprite is worked out from.
ghost use Rattle.std.specs.Prelude.{◌^◌, ◌≤◌, ◌<◌};

// How the columns of a box turn on a line: where column 0 lies in the sprite, 256 to a pixel, and what a column adds. Each is
// larger by a bias; in these ranges no difference is below 0.
#[derive(Clone, Copy)]
pub struct Turn {
    pub x: usize,
    pub y: usize,
    pub pa: usize,
    pub pc: usize,
    pub ghost x_in: { (2 ^ 22 ≤ x) × (x ≤ 2 ^ 26) },
    pub ghost y_in: { (2 ^ 22 ≤ y) × (y ≤ 2 ^ 26) },
    pub ghost pa_in: { pa < 2 ^ 16 },
    pub ghost pc_in: { pc < 2 ^ 16 },
}

// Columns from start up to end.
#[derive(Clone, Copy)]
pub struct Span {
    pub start: usize,
    pub end: usize,
    pub ghost ordered: { start ≤ end },
}
