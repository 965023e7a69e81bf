// A picture that a background shows point by point: an affine background's or a bitmap's, which differ in size and pixel.
ghost use Rattle.std.specs.Prelude.{◌≡◌, ℕ, ◌<◌};
ghost use Rattle.memory.specs.declared.Colors.{Colors as Source};
ghost use Rattle.rgb15.specs.Colour.{rgb};
ghost use Rattle.rows.specs.Tab.{tab};
ghost use Rattle.bg_points.specs.Code.{coordinate, Side};
ghost use Rattle.bg_points.specs.declared.ViewPort.{ViewPort as View};
ghost use Rattle.bg.specs.Code.{Liftable, view_color, picture_color};

use crate::steps::BgAffine;
use bg_points::{ViewPort, rem_euclid};
use memory::{Colors, DISPLAY_WIDTH};
use rgb15::Rgb15;
use std::array;

pub trait Picture: Copy {
    // That it lies in video memory.
    ghost Drawn: { Self → Type 0 };

    ghost viewport: { Self → View };

    ghost pixel: { Self → Source → ℕ → ℕ → ℕ };

    // Its size, and whether it repeats.
    fn viewport(self) -> ViewPort
        requires { Drawn self }
        ensures { (result ≡ viewport self) × Side result.w × Side result.h };

    // The colour at a pixel.
    fn pixel(self, colors: Colors, x: usize, y: usize) -> Rgb15
        requires { Drawn self × (x < (viewport self).w) × (y < (viewport self).h) }
        ensures { result.0 ≡ pixel self colors.entry x y };
}

// The colour at a point.
fn point_color<P: Picture>(picture: P, colors: Colors, x: u32, y: u32) -> Rgb15
    requires { P.Drawn picture }
    ensures { result.0 ≡ view_color (P.viewport picture) (P.pixel picture colors.entry) (coordinate x) (coordinate y) }
{
    let viewport = picture.viewport();
    if !viewport.shows(x, y) {
        return Rgb15::TRANSPARENT;
    }
    let px = rem_euclid(x, viewport.w) as usize;
    let py = rem_euclid(y, viewport.h) as usize;
    picture.pixel(colors, px, py)
}

// A line: each column shows the point that the reference numbers and the steps give.
pub fn render_picture<P: Picture>(
    picture: P,
    colors: Colors,
    affine: BgAffine,
) -> [Rgb15; DISPLAY_WIDTH]
    requires { P.Drawn picture × Liftable affine }
    ensures { result ≡ tab (λ column. rgb (picture_color (P.viewport picture) (P.pixel picture colors.entry) affine column)) 240 }
{
    array::from_fn(
        |column: usize| -> Rgb15
            requires { P.Drawn picture × Liftable affine × (column < 240) }
            ensures { result.0 ≡ picture_color (P.viewport picture) (P.pixel picture colors.entry) affine column }
        {
            let (x, y) = affine.point(column);
            point_color(picture, colors, x, y)
        },
    )
}
