// Regular backgrounds, of modes 0 and 1 (gpu/render/text.rs).

#![tactic(auto)]

ghost use Rattle.std.specs.Prelude.{◌≡◌, ◌+◌, ◌*◌, ◌/◌, ◌%◌, ◌<◌};
ghost use Rattle.rgb15.specs.Colour.{rgb};
ghost use Rattle.rows.specs.Tab.{tab};
ghost use Rattle.bg_regular.specs.Regular.{tile_index, x_flip, y_flip, entry_bank, map_entry, entry_color, regular_color};
ghost use Rattle.bg_regular.specs.Code.{Scrolled, MapSide, Placed, RegularMapOf, map_pixel};

use memory::{Colors, DISPLAY_WIDTH, PixelFormat, VideoRam, read_16};
use regs::{BgControl, SCREEN_BLOCK_SIZE};
use rgb15::Rgb15;
use std::array;
use tiles::{TILE_SIDE, Tile, flip};

// A map's block: pixels of a side, and tiles.
const BLOCK_SIDE: usize = 256;

const BLOCK_TILES: usize = BLOCK_SIDE / TILE_SIDE;

// The tiles that a line goes through, of the first and the last a part.
const LINE_TILES: usize = DISPLAY_WIDTH / TILE_SIDE + 1;

// An entry of a regular background's map.
#[derive(Clone, Copy)]
pub struct TileMapEntry(pub u16);

impl TileMapEntry {
    fn tile_index(self) -> usize
        ensures { result ≡ tile_index self.0 }
    {
        self.0 as usize % 0x400
    }

    fn x_flip(self) -> bool
        ensures { result ≡ x_flip self.0 }
    {
        self.0 / 0x400 % 2 == 1
    }

    fn y_flip(self) -> bool
        ensures { result ≡ y_flip self.0 }
    {
        self.0 / 0x800 % 2 == 1
    }

    fn palette_bank(self) -> usize
        ensures { result ≡ entry_bank self.0 }
    {
        self.0 as usize / 0x1000 % 16
    }
}

// A coordinate wrapped by a side of 256 or 512, which are divided by as literals.
fn wrap(at: usize, side: usize) -> usize
    requires { MapSide side }
    ensures { (result ≡ at % side) × (result < 512) }
{
    if side == 512 { at % 512 } else { at % 256 }
}

// A regular background's map and its tiles: where each starts, the format of the tiles, and the sides.
#[derive(Clone, Copy)]
pub struct RegularMap {
    tilemap_base: usize,
    tileset_base: usize,
    format: PixelFormat,
    width: usize,
    height: usize,
}

impl From<u16> for RegularMap {
    ghost from_gives = { λ control map. RegularMapOf control map × Placed map };

    fn from(control: u16) -> RegularMap {
        let bgcnt = BgControl::from(control);
        let size = bgcnt.size_regular();
        RegularMap {
            tilemap_base: bgcnt.screen_block(),
            tileset_base: bgcnt.char_block(),
            format: bgcnt.tile_format(),
            width: size.width,
            height: size.height,
        }
    }
}

impl RegularMap {
    // The entry for a pixel.
    fn entry(self, vram: &VideoRam, x: usize, y: usize) -> TileMapEntry
        requires { Placed self × (x < 512) × (y < 512) }
        ensures { result.0 ≡ map_entry vram.now self.tilemap_base self.width x y }
    {
        let sbb = x / BLOCK_SIDE + self.width / BLOCK_SIDE * (y / BLOCK_SIDE);
        let tile_x = x / TILE_SIDE % BLOCK_TILES;
        let tile_y = y / TILE_SIDE % BLOCK_TILES;
        TileMapEntry(read_16(
            vram,
            self.tilemap_base + SCREEN_BLOCK_SIZE * sbb + 2 * (tile_x + BLOCK_TILES * tile_y),
        ))
    }

    // The eight colours that an entry shows in row y of its tile. Empty rows are common, and are seen without looking up a pixel.
    fn entry_row(self, colors: Colors, entry: TileMapEntry, y: usize) -> [Rgb15; TILE_SIDE]
        requires { Placed self × (y < 8) }
        ensures { result ≡ tab (λ x. rgb (entry_color colors.entry.vram.now colors.entry.palette.now
            self.tileset_base self.format entry.0 x y)) 8 }
    {
        let tile = Tile {
            addr: self.tileset_base + entry.tile_index() * self.format.tile_size(),
            format: self.format,
            bank: self.format.palette_bank(entry.palette_bank()),
        };
        let tile_py = flip(entry.y_flip(), TILE_SIDE, y);
        if tile.is_empty_row(colors.vram, tile_py) {
            return [Rgb15::TRANSPARENT; TILE_SIDE];
        }
        tile.row::<0>(colors, tile_py, entry.x_flip())
    }

    // The eight colours of row y in the tile that is number `tile` from the left, where the map repeats.
    fn tile_row(self, colors: Colors, tile: usize, y: usize) -> [Rgb15; TILE_SIDE]
        requires { Placed self × (tile < 128) × (y < 512) }
        ensures { result ≡ tab (λ x. rgb (map_pixel colors.entry self ((8 * tile + x) % self.width) y)) 8 }
    {
        let x = wrap(TILE_SIDE * tile, self.width);
        let entry = self.entry(colors.vram, x, y);
        self.entry_row(colors, entry, y % TILE_SIDE)
    }
}

// A line of a regular background: its control, its offsets, and which line it is.
#[derive(Clone, Copy)]
pub struct RegularLine {
    pub control: u16,
    pub hofs: usize,
    pub vofs: usize,
    pub line: usize,
}

impl RegularLine {
    // The 31 tiles that the line goes through, each whole: the line with its offset rounded down to a tile, and eight columns
    // more.
    fn tiles(self, colors: Colors) -> [[Rgb15; TILE_SIDE]; LINE_TILES]
        requires { Scrolled self }
        ensures { result ≡ tab (λ t. tab (λ x. rgb (regular_color colors.entry.vram.now colors.entry.palette.now
            self.control (self.hofs / 8 * 8) self.vofs (8 * t + x) self.line)) 8) 31 }
    {
        let map = RegularMap::from(self.control);
        let first = self.hofs / TILE_SIDE;
        let y = wrap(self.line + self.vofs, map.height);
        array::from_fn(
            |t: usize| -> [Rgb15; TILE_SIDE]
                requires { Placed map × (first + t < 128) × (y < 512) }
                ensures { result ≡ tab (λ x. rgb (map_pixel colors.entry map ((8 * (first + t) + x) % map.width) y)) 8 }
            { map.tile_row(colors, first + t, y) },
        )
    }

    // The line.
    pub fn render(self, colors: Colors) -> [Rgb15; DISPLAY_WIDTH]
        requires { Scrolled self }
        ensures { result ≡ tab (λ column. rgb (regular_color colors.entry.vram.now colors.entry.palette.now
            self.control self.hofs self.vofs column self.line)) 240 }
    {
        let tiles = self.tiles(colors);
        let columns = tiles.as_flattened();
        let start_tile_x = self.hofs % TILE_SIDE;
        array::from_fn(|column| columns[column + start_tile_x])
    }
}
