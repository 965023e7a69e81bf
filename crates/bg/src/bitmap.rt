// Bitmap backgrounds, of modes 3 to 5 (gpu/render/bitmap.rs), as one picture: they differ in size, page and pixel.
ghost use Rattle.std.specs.Prelude.{◌≡◌, ◌≤◌, ◌<◌};
ghost use Rattle.bg.specs.Bitmap.{bitmap_start, bitmap_pixel};
ghost use Rattle.bg.specs.Code.{BitmapViewPort, BitmapOf, BitmapDrawn};

use crate::picture::Picture;
use bg_points::ViewPort;
use memory::{Colors, DISPLAY_HEIGHT, DISPLAY_WIDTH, get_palette_color, read_8, read_16};
use regs::{BgControl, DisplayControl};
use rgb15::Rgb15;

// The size of a picture in mode 5, and in modes 3 and 4.
const MODE5_WIDTH: u32 = 160;

const MODE5_HEIGHT: u32 = 128;

const SCREEN_WIDTH: u32 = DISPLAY_WIDTH as u32;

const SCREEN_HEIGHT: u32 = DISPLAY_HEIGHT as u32;

// How far apart the frames of modes 4 and 5 lie.
const PAGE_SIZE: usize = 0xa000;

// The size of a mode's picture.
fn bitmap_viewport(mode: u16, wraparound: bool) -> ViewPort
    ensures { BitmapViewPort mode wraparound result }
{
    let (w, h) = if mode == 5 {
        (MODE5_WIDTH, MODE5_HEIGHT)
    } else {
        (SCREEN_WIDTH, SCREEN_HEIGHT)
    };
    ViewPort { w, h, wraparound }
}

// Where a mode's frame starts.
fn page_ofs(mode: u16, frame: u16) -> usize
    requires { frame < 2 }
    ensures { (result ≡ bitmap_start mode frame) × (result ≤ 0xa000) }
{
    if mode == 3 {
        0
    } else {
        frame as usize * PAGE_SIZE
    }
}

// A bitmap: its mode, where its frame starts, and its size.
#[derive(Clone, Copy)]
pub struct Bitmap {
    pub mode: u16,
    pub page: usize,
    pub viewport: ViewPort,
}

impl Bitmap {
    pub fn new(dispcnt: DisplayControl, control: u16) -> Bitmap
        requires { dispcnt.display_frame_select < 2 }
        ensures { BitmapOf dispcnt control result × BitmapDrawn result }
    {
        let bgcnt = BgControl::from(control);
        Bitmap {
            mode: dispcnt.mode,
            page: page_ofs(dispcnt.mode, dispcnt.display_frame_select),
            viewport: bitmap_viewport(dispcnt.mode, bgcnt.affine_wraparound),
        }
    }
}

impl Picture for Bitmap {
    ghost Drawn = { BitmapDrawn };

    ghost viewport = { λ p. p.viewport };

    ghost pixel = { λ p c. bitmap_pixel c.vram.now c.palette.now p.mode p.page p.viewport.w };

    fn viewport(self) -> ViewPort {
        self.viewport
    }

    // Words taken whole, or bytes through the palette.
    fn pixel(self, colors: Colors, x: usize, y: usize) -> Rgb15 {
        let vram = colors.vram;
        let index = x + self.viewport.w as usize * y;
        if self.mode == 4 {
            get_palette_color(colors.palette, read_8(vram, self.page + index), 0, 0)
        } else {
            Rgb15(read_16(vram, self.page + 2 * index))
        }
    }
}
