// Points of affine and bitmap backgrounds (gpu/render.rs).

#![tactic(auto)]

ghost use Rattle.std.specs.Prelude.{◌≡◌, true, ◌&&◌, ◌/◌, ◌<◌};
ghost use Rattle.signed.specs.Signed.{in_range, wrapped, within};
ghost use Rattle.bg_points.specs.Code.{coordinate, Side};
ghost use Rattle.bg_points.specs.Point.{transform_bg_point, shows};

mod references;

pub use references::References;
use signed::{HALF_BIAS, REFERENCE_BIAS, lift_half, lift_i32};

// What a number is larger by than the coordinate that it stands for: a multiple of every side.
const BG_POINT_BIAS: u32 = 0x1e_0000;

// 256 times the bias, less the bias of a lifted reference number.
const REFERENCE_RISE: u32 = 256 * BG_POINT_BIAS - REFERENCE_BIAS;

// The width and height of a picture, and whether it repeats.
#[derive(Clone, Copy)]
pub struct ViewPort {
    pub w: u32,
    pub h: u32,
    pub wraparound: bool,
}

// Whether a coordinate is one of 0 to side - 1.
fn contains(side: u32, q: u32) -> bool
    ensures { result ≡ within (coordinate q) side }
{
    BG_POINT_BIAS <= q && q - BG_POINT_BIAS < side
}

impl ViewPort {
    // Whether a point lies in the picture.
    pub fn contains_point(self, x: u32, y: u32) -> bool
        ensures { result ≡ (within (coordinate x) self.w && within (coordinate y) self.h) }
    {
        contains(self.w, x) & contains(self.h, y)
    }

    // Whether a point shows a pixel.
    #[tactic(auto, unfolding(crate::specs::Point::shows))]
    pub fn shows(self, x: u32, y: u32) -> bool
        ensures { result ≡ shows self.wraparound self.w self.h (coordinate x) (coordinate y) }
    {
        self.contains_point(x, y) | self.wraparound
    }
}

// A coordinate wrapped by the non-negative remainder; inside it is itself, so that only points outside divide.
pub fn rem_euclid(q: u32, side: u32) -> u32
    requires { Side side }
    ensures { (result ≡ wrapped (coordinate q) side) × (result < side) }
{
    if contains(side, q) {
        q - BG_POINT_BIAS
    } else {
        q % side
    }
}

// A sum divided by 256, rounded down: below zero too, since it is larger by 256 times the bias.
fn down_256(sum: u32) -> u32
    ensures { result ≡ sum / 256 }
{
    sum / 256
}

// A coordinate of the point of a column, from a reference number and a step.
pub fn transform_bg_point(reference: i32, step: u16, screen_x: u32) -> u32
    requires { (in_range reference ≡ true) × (screen_x < 240) }
    ensures { transform_bg_point reference step screen_x ≡ coordinate result }
{
    let reference = lift_i32(reference);
    let step = lift_half(step);
    down_256(reference + REFERENCE_RISE + screen_x * step - screen_x * HALF_BIAS)
}
