// What the pass over sprites shows of one on a line (gpu/render/obj.rs): the row of colours of a normal sprite, and that of an
// affine one's box.

#![tactic(auto)]

mod affine;
mod normal;
mod turn;

pub use affine::{affine_row, point_color, turn_line};
pub use normal::texel_row;
pub use turn::{Span, Turn};
