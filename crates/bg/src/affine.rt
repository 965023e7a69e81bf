// Affine backgrounds, of modes 1 and 2 (gpu/render/text.rs).
ghost use Rattle.std.specs.Prelude.{◌≡◌, ◌≤◌, ◌<◌};
ghost use Rattle.bg_points.specs.Code.{Side};
ghost use Rattle.bg.specs.Affine.{affine_side, affine_pixel};
ghost use Rattle.bg.specs.Code.{AffineOf, AffineDrawn};

use crate::picture::Picture;
use bg_points::ViewPort;
use memory::{Colors, PixelFormat, TILE_SIZE, read_8};
use regs::BgControl;
use rgb15::Rgb15;
use tiles::{TILE_SIDE, Tile};

// Bytes of a tile of 256 colours.
const TILE_SIZE_BPP8: usize = 2 * TILE_SIZE;

// The side of an affine background.
fn texture_size(size: u8) -> u32
    requires { size < 4 }
    ensures { (result ≡ affine_side size) × Side result × (result ≤ 1024) }
{
    128 << size
}

// An affine background: where its map and its tiles start, and its square.
#[derive(Clone, Copy)]
pub struct AffinePicture {
    pub screen_block: usize,
    pub char_block: usize,
    pub viewport: ViewPort,
}

impl From<u16> for AffinePicture {
    ghost from_gives = { λ control picture. AffineOf control picture × AffineDrawn picture };

    fn from(control: u16) -> AffinePicture {
        let bgcnt = BgControl::from(control);
        let side = texture_size(bgcnt.size);
        AffinePicture {
            screen_block: bgcnt.screen_block(),
            char_block: bgcnt.char_block(),
            viewport: ViewPort {
                w: side,
                h: side,
                wraparound: bgcnt.affine_wraparound,
            },
        }
    }
}

impl Picture for AffinePicture {
    ghost Drawn = { AffineDrawn };

    ghost viewport = { λ p. p.viewport };

    ghost pixel = { λ p c. affine_pixel c.vram.now c.palette.now p.screen_block p.char_block p.viewport.w };

    fn viewport(self) -> ViewPort {
        self.viewport
    }

    fn pixel(self, colors: Colors, x: usize, y: usize) -> Rgb15 {
        let vram = colors.vram;
        let side = self.viewport.w as usize;
        let tile_index = read_8(
            vram,
            self.screen_block + x / TILE_SIDE + side / TILE_SIDE * (y / TILE_SIDE),
        );
        let tile = Tile {
            addr: self.char_block + TILE_SIZE_BPP8 * tile_index,
            format: PixelFormat::BPP8,
            bank: 0,
        };
        tile.color(colors, 0, x % TILE_SIDE, y % TILE_SIDE)
    }
}
