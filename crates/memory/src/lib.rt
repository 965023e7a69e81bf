// Reads of the lent memory (gpu/mod.rs, its reads).

#![tactic(auto)]

ghost use Rattle.std.specs.Prelude.{◌≡◌, ◌+◌, ◌*◌, ◌≤◌, ◌<◌, length};
ghost use Rattle.memory.specs.Sizes.{video_ram_size};
ghost use Rattle.memory.specs.Memory.{byte, half};
ghost use Rattle.memory.specs.Palette.{palette_color, backdrop};
ghost use Rattle.memory.specs.Tiles.{tile_size, colours, palette_bank, tile_pixel};

use rgb15::Rgb15;
use std::marker::Model;

// What is lent, in bytes.
pub const VIDEO_RAM_SIZE: usize = 0x20000;

pub const PALETTE_RAM_SIZE: usize = 0x400;

pub const OAM_SIZE: usize = 0x400;

pub const REGISTERS_SIZE: usize = 0x56;

pub const OUTPUT_SIZE: usize = 4 * DISPLAY_WIDTH;

pub const DISPLAY_WIDTH: usize = 240;

pub const DISPLAY_HEIGHT: usize = 160;

// Bytes of a tile of 16 colours.
pub const TILE_SIZE: usize = 0x20;

// What is lent, each by its length.
pub type VideoRam = [u8; VIDEO_RAM_SIZE];

pub type PaletteRam = [u8; PALETTE_RAM_SIZE];

pub type Oam = [u8; OAM_SIZE];

pub type Registers = [u8; REGISTERS_SIZE];

pub type Output = [u8; OUTPUT_SIZE];

// The memory that a draw reads. A contract sees its bytes, as the record of the four lists.
#[derive(Drop)]
pub struct Memory<'a> {
    pub vram: &'a VideoRam,
    pub palette: &'a PaletteRam,
    pub oam: &'a Oam,
    pub registers: &'a Registers,
}

impl<'a> Model for Memory<'a> {
    ghost use Rattle.memory.specs.Memory.{Memory as Bytes, MemoryLengths};

    ghost Value = { Bytes };

    ghost use Rattle.memory.specs.Lent.{memory_bytes};

    ghost view = { memory_bytes };

    ghost invariant = { λ m. MemoryLengths (memory_bytes m) };
}

// What the colours of a background or a sprite are read from: `Colors { vram: memory.vram, palette: memory.palette }` of a memory.
#[derive(Clone, Copy)]
pub struct Colors<'a> {
    pub vram: &'a VideoRam,
    pub palette: &'a PaletteRam,
}

// The byte at `at`, as an index.
pub fn read_8(bytes: &[u8], at: usize) -> usize
    requires { at < length bytes.now }
    ensures { (result ≡ byte bytes.now at) × (result < 256) }
{
    usize::from(bytes[at])
}

// The little-endian halfword at `at`.
#[tactic(auto, unfolding(crate::specs::Memory::half))]
pub fn read_16(bytes: &[u8], at: usize) -> u16
    requires { at + 1 < length bytes.now }
    ensures { result ≡ half bytes.now at }
{
    u16::from_le_bytes([bytes[at], bytes[at + 1]])
}

// How many colours a pixel can have: 4 bits of a byte, or 8.
#[derive(Clone, Copy)]
pub enum PixelFormat {
    BPP4,
    BPP8,
}

impl PixelFormat {
    // Bytes of a tile.
    pub fn tile_size(self) -> usize
        ensures { result ≡ tile_size self }
    {
        match self {
            PixelFormat::BPP4 => TILE_SIZE,
            PixelFormat::BPP8 => 2 * TILE_SIZE,
        }
    }

    // The bank that a pixel of this format takes its colour from.
    pub fn palette_bank(self, bank: usize) -> usize
        requires { bank < 16 }
        ensures { (result ≡ palette_bank self bank) × (16 * result + colours self ≤ 256) }
    {
        match self {
            PixelFormat::BPP4 => bank,
            PixelFormat::BPP8 => 0,
        }
    }
}

// The palette index at column x and row y of the tile at `addr`.
#[tactic(auto, unfolding(crate::specs::Tiles::tile_pixel))]
pub fn read_pixel_index(
    vram: &VideoRam,
    addr: usize,
    x: usize,
    y: usize,
    format: PixelFormat,
) -> usize
    requires { (addr + 63 < video_ram_size) × (x < 8) × (y < 8) }
    ensures { (result ≡ tile_pixel vram.now addr x y format) × (result < colours format) }
{
    match format {
        PixelFormat::BPP4 => {
            let pair = read_8(vram, addr + 4 * y + x / 2);
            if x % 2 == 0 { pair % 16 } else { pair / 16 }
        }
        PixelFormat::BPP8 => read_8(vram, addr + 8 * y + x),
    }
}

// The colour of an index in a bank, from the background's half of the palette or, at offset 0x200, the sprites'.
// The halfword is read before the test of the index: a branch before the load doubles the time.
#[tactic(auto, unfolding(crate::specs::Palette::palette_color))]
pub fn get_palette_color(
    palette: &PaletteRam,
    index: usize,
    palette_bank: usize,
    offset: usize,
) -> Rgb15
    requires { (index + 16 * palette_bank < 256) × (offset ≤ 512) }
    ensures { result.0 ≡ palette_color palette.now offset index palette_bank }
{
    let value = read_16(palette, offset + 2 * index + 0x20 * palette_bank);
    if index == 0 {
        Rgb15::TRANSPARENT
    } else {
        Rgb15(value % 0x8000)
    }
}

// The colour behind all layers.
pub fn read_backdrop(palette: &PaletteRam) -> Rgb15
    ensures { result.0 ≡ backdrop palette.now }
{
    Rgb15(read_16(palette, 0))
}
