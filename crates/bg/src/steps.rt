// What the columns of an affine background or a bitmap go by on a line (gpu/mod.rs, `BgAffine`).
ghost use Rattle.std.specs.Prelude.{◌≡◌, ◌≤◌, ◌<◌};
ghost use Rattle.bg_points.specs.Code.{coordinate};
ghost use Rattle.bg_points.specs.Point.{transform_bg_point};
ghost use Rattle.bg.specs.Code.{BgAffineOf, Liftable};

use bg_points::{References, transform_bg_point};
use memory::Registers;
use regs::iodev::{read_pa, read_pc};

// Where column 0 lies, 256 to a pixel, and what a column adds, as halfwords.
#[derive(Clone, Copy)]
pub struct BgAffine {
    pub x: i32,
    pub y: i32,
    pub pa: u16,
    pub pc: u16,
}

impl BgAffine {
    // The point that a column shows.
    pub fn point(self, column: usize) -> (u32, u32)
        requires { Liftable self × (column < 240) }
        ensures { (transform_bg_point self.x self.pa column ≡ coordinate result.0)
            × (transform_bg_point self.y self.pc column ≡ coordinate result.1) }
    {
        let column = column as u32;
        (
            transform_bg_point(self.x, self.pa, column),
            transform_bg_point(self.y, self.pc, column),
        )
    }
}

// Those of background 2 or 3.
pub fn read_bg_affine(registers: &Registers, references: References, bg: usize) -> BgAffine
    requires { (2 ≤ bg) × (bg < 4) }
    ensures { BgAffineOf registers.now references bg result }
{
    let (x, y) = if bg == 2 {
        (references.x2, references.y2)
    } else {
        (references.x3, references.y3)
    };
    BgAffine {
        x,
        y,
        pa: read_pa(registers, bg),
        pc: read_pc(registers, bg),
    }
}
