// A tile's pixels and rows, for backgrounds and sprites alike (gpu/mod.rs, its reads).

#![tactic(auto)]

ghost use Rattle.std.specs.Prelude.{◌≡◌, ◌+◌, ◌*◌, ◌<◌, eqb, length, get_or};
ghost use Rattle.rgb15.specs.Colour.{rgb};
ghost use Rattle.rows.specs.Below.{all_below};
ghost use Rattle.rows.specs.Tab.{tab};
ghost use Rattle.memory.specs.Memory.{half};
ghost use Rattle.memory.specs.Palette.{palette_color};
ghost use Rattle.memory.specs.Tiles.{tile_pixel};
ghost use Rattle.tiles.specs.Flip.{flip};
ghost use Rattle.memory.specs.Sizes.{video_ram_size};
ghost use Rattle.tiles.specs.Code.{TileColors, color_in_tile};

use memory::{Colors, PixelFormat, VideoRam, get_palette_color, read_16, read_pixel_index};
use rgb15::Rgb15;
use std::array;

// Columns of a tile, and its rows.
pub const TILE_SIDE: usize = 8;

// A place of a side, counted from the other end where the bit is set.
#[tactic(auto, unfolding(crate::specs::Flip::flip))]
pub fn flip(set: bool, side: usize, at: usize) -> usize
    requires { at < side }
    ensures { (result ≡ flip set side at) × (result < side) }
{
    if set { side - 1 - at } else { at }
}

// A row, from right to left if it is flipped.
pub fn flip_row(row: [Rgb15; TILE_SIDE], flipped: bool) -> [Rgb15; TILE_SIDE]
    ensures { result ≡ tab (λ x. get_or row (flip flipped 8 x) (rgb 0)) 8 }
{
    let mut shown = row;
    if flipped {
        shown.reverse();
    }
    shown
}

// A tile: where it starts, how many colours its pixels have, and the bank that these are in.
#[derive(Clone, Copy)]
pub struct Tile {
    pub addr: usize,
    pub format: PixelFormat,
    pub bank: usize,
}

impl Tile {
    // The colour of a pixel, from the background's half of the palette or, at offset 0x200, the sprites'.
    pub fn color(self, colors: Colors, offset: usize, x: usize, y: usize) -> Rgb15
        requires { TileColors offset self × (x < 8) × (y < 8) }
        ensures { result.0 ≡ color_in_tile colors.entry offset self x y }
    {
        let index = read_pixel_index(colors.vram, self.addr, x, y, self.format);
        get_palette_color(colors.palette, index, self.bank, offset)
    }

    // The colours of row y, from right to left if it is flipped; `color`'s offset is a constant here.
    pub fn row<const OFFSET: usize>(
        self,
        colors: Colors,
        y: usize,
        flipped: bool,
    ) -> [Rgb15; TILE_SIDE]
        requires { TileColors OFFSET self × (y < 8) }
        ensures { result ≡ tab (λ x. rgb (color_in_tile colors.entry OFFSET self (flip flipped 8 x) y)) 8 }
    {
        let row = array::from_fn(
            |x: usize| -> Rgb15
                requires { TileColors OFFSET self × (x < 8) × (y < 8) }
                ensures { result.0 ≡ color_in_tile colors.entry OFFSET self x y }
            { self.color(colors, OFFSET, x, y) },
        );
        flip_row(row, flipped)
    }

    // Whether every pixel of row y has index 0. Its bytes are one word, or two.
    pub fn is_empty_row(self, vram: &VideoRam, y: usize) -> bool
        requires { (self.addr + 63 < video_ram_size) × (y < 8) }
        ensures { result ≡ all_below (λ x. eqb (tile_pixel vram.now self.addr x y self.format) 0) 8 }
    {
        match self.format {
            PixelFormat::BPP4 => read_32(vram, self.addr + 4 * y) == 0,
            PixelFormat::BPP8 => {
                let at = self.addr + 8 * y;
                (read_32(vram, at) == 0) & (read_32(vram, at + 4) == 0)
            }
        }
    }
}

// The little-endian word at `at`.
fn read_32(bytes: &[u8], at: usize) -> u32
    requires { at + 3 < length bytes.now }
    ensures { result ≡ half bytes.now at + 0x10000 * half bytes.now (at + 2) }
{
    u32::from(read_16(bytes, at)) + 0x10000 * u32::from(read_16(bytes, at + 2))
}
