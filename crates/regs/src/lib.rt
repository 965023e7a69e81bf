// Registers decoded to values (gpu/regs.rs): display and background control. The reading and the lent bytes have files of their
// own, and windows and blending crates.

#![tactic(auto)]

ghost use Rattle.std.specs.Prelude.{◌≡◌};
ghost use Rattle.regs.specs.Display.{DisplayControlOf, is_using_windows, obj_mapping};
ghost use Rattle.regs.specs.Background.{BgControlOf, RegularSize, char_block, screen_block, tile_format};

pub mod iodev;
mod reading;

use memory::PixelFormat;
pub use reading::Reading;

pub const SCREEN_BLOCK_SIZE: usize = 0x800;

#[derive(Clone, Copy)]
pub enum ObjMapping {
    TwoDimension,
    OneDimension,
}

#[derive(Clone, Copy)]
pub struct DisplayControl {
    pub mode: u16,
    pub display_frame_select: u16,
    pub hblank_interval_free: bool,
    pub obj_character_vram_mapping: bool,
    pub force_blank: bool,
    pub enable_bg: [bool; 4],
    pub enable_obj: bool,
    pub enable_window0: bool,
    pub enable_window1: bool,
    pub enable_obj_window: bool,
}

impl From<u16> for DisplayControl {
    ghost from_gives = { DisplayControlOf };

    fn from(value: u16) -> DisplayControl {
        let enable_bg = [
            value / 0x100 % 2 == 1,
            value / 0x200 % 2 == 1,
            value / 0x400 % 2 == 1,
            value / 0x800 % 2 == 1,
        ];
        DisplayControl {
            mode: value % 8,
            display_frame_select: value / 0x10 % 2,
            hblank_interval_free: value / 0x20 % 2 == 1,
            obj_character_vram_mapping: value / 0x40 % 2 == 1,
            force_blank: value / 0x80 % 2 == 1,
            enable_bg,
            enable_obj: value / 0x1000 % 2 == 1,
            enable_window0: value / 0x2000 % 2 == 1,
            enable_window1: value / 0x4000 % 2 == 1,
            enable_obj_window: value / 0x8000 % 2 == 1,
        }
    }
}

impl DisplayControl {
    // Whether any window is on.
    pub fn is_using_windows(self) -> bool
        ensures { result ≡ is_using_windows self.enable_window0 self.enable_window1 self.enable_obj_window }
    {
        self.enable_window0 | self.enable_window1 | self.enable_obj_window
    }

    // How the tiles of a sprite follow one another.
    pub fn obj_mapping(self) -> ObjMapping
        ensures { result ≡ obj_mapping self.obj_character_vram_mapping }
    {
        if self.obj_character_vram_mapping {
            ObjMapping::OneDimension
        } else {
            ObjMapping::TwoDimension
        }
    }
}

#[derive(Clone, Copy)]
pub struct BgControl {
    pub priority: u16,
    pub character_base_block: u16,
    pub screen_base_block: u16,
    pub mosaic: bool,
    pub palette256: bool,
    pub affine_wraparound: bool,
    pub size: u8,
}

// The width and height of a regular background.
#[derive(Clone, Copy)]
pub struct BgSize {
    pub width: usize,
    pub height: usize,
}

impl From<u16> for BgControl {
    ghost from_gives = { BgControlOf };

    fn from(value: u16) -> BgControl {
        BgControl {
            priority: value % 4,
            character_base_block: value / 0x4 % 4,
            mosaic: value / 0x40 % 2 == 1,
            palette256: value / 0x80 % 2 == 1,
            screen_base_block: value / 0x100 % 32,
            affine_wraparound: value / 0x2000 % 2 == 1,
            size: (value / 0x4000 % 4) as u8,
        }
    }
}

impl BgControl {
    // Where the tiles start.
    pub fn char_block(self) -> usize
        ensures { result ≡ char_block self.character_base_block }
    {
        self.character_base_block as usize * 0x4000
    }

    // Where the map starts.
    pub fn screen_block(self) -> usize
        ensures { result ≡ screen_block self.screen_base_block }
    {
        self.screen_base_block as usize * SCREEN_BLOCK_SIZE
    }

    // The size as a regular background.
    pub fn size_regular(self) -> BgSize
        ensures { RegularSize self.size result }
    {
        let size = self.size as usize;
        BgSize {
            width: 256 + size % 2 * 256,
            height: 256 + size / 0x2 % 2 * 256,
        }
    }

    // How many colours the tiles have.
    pub fn tile_format(self) -> PixelFormat
        ensures { result ≡ tile_format self.palette256 }
    {
        if self.palette256 {
            PixelFormat::BPP8
        } else {
            PixelFormat::BPP4
        }
    }
}
