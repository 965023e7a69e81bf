// A span of a line's columns.
ghost use Rattle.std.specs.Prelude.{◌≤◌};

// The columns from left on and before right.
#[derive(Clone, Copy)]
pub struct Columns {
    pub left: usize,
    pub right: usize,
    pub ghost ordered: { left ≤ right },
    pub ghost bound: { right ≤ 240 },
}
