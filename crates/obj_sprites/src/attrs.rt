// A sprite's attributes, decoded (render/obj.rs: `ObjAttrs`, its enums and its bit fields). R and H part at the tile number
// alone, and agree wherever else a reading is passed on.
ghost use Rattle.std.specs.Prelude.{◌≡◌, ◌+◌, ◌^◌, ◌≤◌, ◌<◌, pos};
ghost use Rattle.std.proofs.Math.IntN.{sub_ℕ};
ghost use Rattle.signed.specs.Signed.{within};
ghost use Rattle.bits.specs.Bits.{bits};
ghost use Rattle.regs.specs.Background.{tile_format};
ghost use Rattle.obj_sprites.specs.Attrs.{obj_mode, obj_type, obj_attrs};
ghost use Rattle.obj_sprites.specs.Place.{boxed, box_width, box_height, left, top, below};
ghost use Rattle.obj_sprites.specs.Tiles.{ignores_lowest_bit, tile_number, tile_base, tile_row};
ghost use Rattle.obj_sprites.specs.Sprite.{is_shown, is_permitted, drawn};
ghost use Rattle.obj_sprites.specs.Code.{SizeOf, OnLine, is_near};

use crate::View;
use memory::{PixelFormat, TILE_SIZE};
use regs::{ObjMapping, Reading};
use std::marker::Model;

// Where sprite tiles are counted from.
pub const OVRAM: usize = 0x1_0000;

// What a box's left edge and its top are larger by in code, so that neither is below 0.
pub const X_BIAS: usize = 272;

const Y_BIAS: usize = 96;

// The columns of the widest box, and the lines of the highest.
pub const BOX_MAX: usize = 128;

#[derive(Clone, Copy)]
pub enum ObjMode {
    Normal,
    Sfx,
    Window,
    Forbidden,
}

// By the two low bits.
impl From<u16> for ObjMode {
    ghost from_gives = { λ value made. made ≡ obj_mode (bits 1 0 value) };

    #[tactic(auto, unfolding(crate::specs::Attrs::obj_mode))]
    fn from(value: u16) -> ObjMode {
        match value % 4 {
            0 => ObjMode::Normal,
            1 => ObjMode::Sfx,
            2 => ObjMode::Window,
            _ => ObjMode::Forbidden,
        }
    }
}

impl ObjMode {
    // Whether sprites of this mode are drawn.
    #[tactic(auto, unfolding(crate::specs::Sprite::is_permitted))]
    fn is_permitted(self) -> bool
        ensures { result ≡ is_permitted self }
    {
        match self {
            ObjMode::Normal | ObjMode::Sfx | ObjMode::Window => true,
            ObjMode::Forbidden => false,
        }
    }
}

#[derive(Clone, Copy)]
pub enum ObjType {
    Normal,
    Affine,
    Hidden,
    AffineDoubleSize,
}

// By the two low bits.
impl From<u16> for ObjType {
    ghost from_gives = { λ value made. made ≡ obj_type (bits 1 0 value) };

    #[tactic(auto, unfolding(crate::specs::Attrs::obj_type))]
    fn from(value: u16) -> ObjType {
        match value % 4 {
            0 => ObjType::Normal,
            1 => ObjType::Affine,
            2 => ObjType::Hidden,
            _ => ObjType::AffineDoubleSize,
        }
    }
}

impl ObjType {
    // Whether sprites of this type are drawn.
    #[tactic(auto, unfolding(crate::specs::Sprite::is_shown))]
    fn is_shown(self) -> bool
        ensures { result ≡ is_shown self }
    {
        match self {
            ObjType::Normal | ObjType::Affine | ObjType::AffineDoubleSize => true,
            ObjType::Hidden => false,
        }
    }

    // A side of the box.
    #[tactic(auto, unfolding(crate::specs::Place::boxed))]
    fn boxed(self, side: usize) -> usize
        requires { side ≤ 64 }
        ensures { (result ≡ boxed self side) × (result ≤ 128) }
    {
        match self {
            ObjType::Normal | ObjType::Affine | ObjType::Hidden => side,
            ObjType::AffineDoubleSize => 2 * side,
        }
    }
}

// A width and a height.
#[derive(Clone, Copy)]
struct Size(u8, u8);

// Width and height, laid out as in GBATEK: a row for each size, 0 to 3; square, wide, tall, and the prohibited shape, which
// is always 8x8.
const OBJ_SIZES: [[Size; 4]; 4] = [
    [Size(8, 8), Size(16, 8), Size(8, 16), Size(8, 8)],
    [Size(16, 16), Size(32, 8), Size(8, 32), Size(8, 8)],
    [Size(32, 32), Size(32, 16), Size(16, 32), Size(8, 8)],
    [Size(64, 64), Size(64, 32), Size(32, 64), Size(8, 8)],
];

impl Size {
    fn lookup(size: u16, shape: u16) -> Size
        requires { (size < 4) × (shape < 4) }
        ensures { SizeOf size shape result }
    {
        OBJ_SIZES[size as usize][shape as usize]
    }
}

// How many colours a sprite has, by its bit.
fn tile_format(is_8bpp: bool) -> PixelFormat
    ensures { result ≡ tile_format is_8bpp }
{
    if is_8bpp {
        PixelFormat::BPP8
    } else {
        PixelFormat::BPP4
    }
}

// Whether a place lies in the `size` places from `from` on.
pub fn is_inside(at: usize, from: usize, size: usize) -> bool
    requires { (from ≤ 2 ^ 16) × (size ≤ 128) }
    ensures { result ≡ within (sub_ℕ at from) size }
{
    (from <= at) & (at < from + size)
}

// A sprite, field by field in the order of its bits; x and y are as its halfwords hold them.
#[derive(Clone, Copy)]
pub struct ObjAttrs {
    pub y: usize,
    pub objtype: ObjType,
    pub objmode: ObjMode,
    pub format: PixelFormat,
    pub x: usize,
    pub affine_index: usize,
    pub h_flip: bool,
    pub v_flip: bool,
    pub width: usize,
    pub height: usize,
    pub tile: usize,
    pub priority: u8,
    pub bank: usize,
}

// A contract sees the same fields; that they lie in the ranges of their bits is known of each sprite.
impl Model for ObjAttrs {
    ghost use Rattle.obj_sprites.specs.Fields.{Fields, Decoded};

    ghost Value = { Fields };

    ghost use Rattle.obj_sprites.specs.Inside.{fields_of, inside_of};

    ghost view = { fields_of };

    ghost inverse = { inside_of };

    ghost invariant = { λ a. Decoded (fields_of a) };
}

impl ObjAttrs {
    pub(crate) fn new(attr0: u16, attr1: u16, attr2: u16) -> ObjAttrs
        ensures { result ≡ obj_attrs (record { first = attr0; second = attr1; third = attr2 }) }
    {
        let size = Size::lookup(attr1 / 0x4000 % 4, attr0 / 0x4000 % 4);
        ObjAttrs {
            y: (attr0 % 0x100) as usize,
            objtype: ObjType::from(attr0 / 0x100),
            objmode: ObjMode::from(attr0 / 0x400),
            format: tile_format(attr0 / 0x2000 % 2 == 1),
            x: (attr1 % 0x200) as usize,
            affine_index: (attr1 / 0x200 % 32) as usize,
            h_flip: attr1 / 0x1000 % 2 == 1,
            v_flip: attr1 / 0x2000 % 2 == 1,
            width: size.0 as usize,
            height: size.1 as usize,
            tile: (attr2 % 0x400) as usize,
            priority: (attr2 / 0x400 % 4) as u8,
            bank: (attr2 / 0x1000) as usize,
        }
    }

    // The column of the box's left edge, plus 272.
    pub fn left(self, reading: Reading) -> usize
        ensures { (left reading self ≡ sub_ℕ result 272) × (result ≤ 511) }
    {
        (self.x + X_BIAS) % 512
    }

    // The line of the box's top, plus 96.
    pub(crate) fn top(self, reading: Reading) -> usize
        ensures { (top reading self ≡ sub_ℕ result 96) × (result ≤ 255) }
    {
        (self.y + Y_BIAS) % 256
    }

    // The width of the box.
    pub fn box_width(self) -> usize
        ensures { (result ≡ box_width self) × (result ≤ 128) }
    {
        self.objtype.boxed(self.width)
    }

    // The height of the box.
    pub fn box_height(self) -> usize
        ensures { (result ≡ box_height self) × (result ≤ 128) }
    {
        self.objtype.boxed(self.height)
    }

    // The row of the box that a line is.
    pub fn row(self, reading: Reading, line: usize) -> usize
        requires { OnLine reading self line }
        ensures { (below reading self line ≡ pos result) × (result < box_height self) }
    {
        line + Y_BIAS - self.top(reading)
    }

    // Whether the lowest bit of the tile number is ignored.
    #[tactic(auto, unfolding(crate::specs::Tiles::ignores_lowest_bit))]
    fn ignores_lowest_bit(self, reading: Reading, mapping: ObjMapping) -> bool
        ensures { result ≡ ignores_lowest_bit reading mapping self.format }
    {
        match mapping {
            ObjMapping::OneDimension => false,
            ObjMapping::TwoDimension => {
                let format = self.format;
                match format {
                    PixelFormat::BPP4 => false,
                    PixelFormat::BPP8 => match reading {
                        Reading::R => false,
                        Reading::H => true,
                    },
                }
            }
        }
    }

    // The tile number as the reading counts it.
    #[tactic(auto, unfolding(crate::specs::Tiles::tile_number))]
    fn tile_number(self, reading: Reading, mapping: ObjMapping) -> usize
        ensures { (result ≡ tile_number reading mapping self) × (result ≤ 1023) }
    {
        if self.ignores_lowest_bit(reading, mapping) {
            2 * (self.tile / 2)
        } else {
            self.tile
        }
    }

    // Where the sprite's tiles start.
    #[tactic(auto, unfolding(crate::specs::Tiles::tile_base))]
    pub fn tile_base(self, reading: Reading, mapping: ObjMapping) -> usize
        ensures { (result ≡ tile_base reading mapping self) × (result ≤ 98272) }
    {
        OVRAM + TILE_SIZE * self.tile_number(reading, mapping)
    }

    // How many tiles further the next row of tiles is.
    #[tactic(auto, unfolding(crate::specs::Tiles::tile_row))]
    pub(crate) fn tile_array_width(self, mapping: ObjMapping) -> usize
        ensures { (result ≡ tile_row mapping self.format self.width) × (result ≤ 32) }
    {
        match mapping {
            ObjMapping::OneDimension => self.width / 8,
            ObjMapping::TwoDimension => {
                let format = self.format;
                match format {
                    PixelFormat::BPP8 => 16,
                    PixelFormat::BPP4 => 32,
                }
            }
        }
    }

    // Whether a line may be in the sprite's box, by its type and its top. It is asked before a sprite is read with its size:
    // a constant table is built anew wherever it is read.
    #[tactic(auto, using(crate::proofs::Drawn::near_is))]
    pub fn is_near(self, reading: Reading, line: usize) -> bool
        requires { line < 160 }
        ensures { result ≡ is_near reading self line }
    {
        self.objtype.is_shown() & is_inside(line + Y_BIAS, self.top(reading), BOX_MAX)
    }

    // Whether the sprite is drawn on a line. Sprite tiles start at an even number, so the lowest bit of the sprite's decides
    // nothing here, whether the reading counts it or not.
    #[tactic(auto, using(crate::proofs::Drawn::drawn_is))]
    pub fn is_drawn(self, view: View) -> bool
        ensures { result ≡ drawn view.reading view.mapping view.tiles_start self view.line }
    {
        let objtype = self.objtype;
        let objmode = self.objmode;
        let on_line = is_inside(
            view.line + Y_BIAS,
            self.top(view.reading),
            self.box_height(),
        );
        let has_tiles = view.tiles_start <= OVRAM + TILE_SIZE * self.tile;
        objtype.is_shown() & objmode.is_permitted() & on_line & has_tiles
    }
}
