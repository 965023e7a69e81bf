// A sprite as one reading and one mapping have it.
ghost use Rattle.std.specs.Prelude.{◌≡◌, ◌≤◌, ◌<◌, ◌+◌, ◌*◌, nat_abs};
ghost use Rattle.tiles.specs.Flip.{flip};
ghost use Rattle.obj_sprites.specs.Place.{below};
ghost use Rattle.obj_sprites.specs.Tiles.{tile_base, tile_row, texel};
ghost use Rattle.memory.specs.Tiles.{palette_bank, colours};

use crate::{ObjAttrs, PALRAM_OFS_FG};
use memory::Colors;
use regs::{ObjMapping, Reading};
use rgb15::Rgb15;
use tiles::{Tile, flip};

// A sprite, how it is read, and what is worked out once for many pixels: where the sprite's tiles start, how many tiles further
// the next row of them is, and the bank of its colours.
#[derive(Clone, Copy)]
pub struct Sprite {
    pub attrs: ObjAttrs,
    pub reading: Reading,
    pub mapping: ObjMapping,
    pub base: usize,
    pub row: usize,
    pub bank: usize,
    pub ghost row_is: { row ≡ tile_row mapping attrs.format attrs.width },
    pub ghost row_in: { row ≤ 32 },
    pub ghost bank_is: { bank ≡ palette_bank attrs.format attrs.bank },
    pub ghost bank_in: { 16 * bank + colours attrs.format ≤ 256 },
    pub ghost base_is: { base ≡ tile_base reading mapping attrs },
    pub ghost base_in: { base ≤ 98272 },
}

impl Sprite {
    ghost use Rattle.obj_sprites.specs.Code.{OnLine, TileOf};
    ghost use Rattle.obj_sprites.specs.declared.attrs.ObjType.{ObjType};

    pub fn new(attrs: ObjAttrs, reading: Reading, mapping: ObjMapping) -> Sprite
        ensures { (result.attrs ≡ attrs) × (result.reading ≡ reading) × (result.mapping ≡ mapping) }
    {
        Sprite {
            attrs,
            reading,
            mapping,
            base: attrs.tile_base(reading, mapping),
            row: attrs.tile_array_width(mapping),
            bank: attrs.format.palette_bank(attrs.bank),
        }
    }

    // The row of a normal sprite's own that the line shows.
    pub fn shown_row(&self, line: usize) -> usize
        requires { OnLine self.now.reading self.now.attrs line × (self.now.attrs.objtype ≡ ObjType.Normal) }
        ensures { (result ≡ flip self.now.attrs.v_flip self.now.attrs.height
            (nat_abs (below self.now.reading self.now.attrs line))) × (result < self.now.attrs.height) }
    {
        let attrs = self.attrs;
        flip(attrs.v_flip, attrs.height, attrs.row(self.reading, line))
    }

    // The tile that holds pixel (x, y).
    #[tactic(auto, unfolding(crate::specs::Tiles::tile_at))]
    pub fn tile(&self, x: usize, y: usize) -> Tile
        requires { (x < self.now.attrs.width) × (y < self.now.attrs.height) }
        ensures { TileOf self.now.reading self.now.mapping self.now.attrs x y result }
    {
        let format = self.attrs.format;
        Tile {
            addr: self.base + format.tile_size() * (x / 8 + self.row * (y / 8)),
            format,
            bank: self.bank,
        }
    }

    // The colour of pixel (x, y).
    pub fn texel(&self, colors: Colors, x: usize, y: usize) -> Rgb15
        requires { (x < self.now.attrs.width) × (y < self.now.attrs.height) }
        ensures { result.0 ≡ texel self.now.reading self.now.mapping colors.entry.vram.now
            colors.entry.palette.now self.now.attrs x y }
    {
        self.tile(x, y).color(colors, PALRAM_OFS_FG, x % 8, y % 8)
    }
}
