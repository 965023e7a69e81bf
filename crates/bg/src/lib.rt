// Backgrounds, one colour line each (gpu/render.rs, render/text.rs, render/bitmap.rs, and what `render_scanline` of gpu/mod.rs
// has of each mode).

#![tactic(auto)]

ghost use Rattle.std.specs.Prelude.{◌≡◌, ◌<◌};
ghost use Rattle.rgb15.specs.Colour.{rgb};
ghost use Rattle.rows.specs.Tab.{tab};
ghost use Rattle.bg.specs.Background.{bg_kind, background_color};
ghost use Rattle.bg.specs.Code.{Drawable};

mod affine;
mod bitmap;
mod picture;
mod steps;

use affine::AffinePicture;
use bg_points::References;
use bg_regular::RegularLine;
use bitmap::Bitmap;
use memory::{Colors, DISPLAY_WIDTH, Registers, read_16};
use picture::render_picture;
use regs::iodev::{BG0CNT, read_dispcnt, read_hofs, read_vofs};
use rgb15::Rgb15;
use steps::read_bg_affine;

// What a background is in a mode.
#[derive(Clone, Copy)]
pub enum BgKind {
    Absent,
    Regular,
    Affine,
    Bitmap,
}

// Backgrounds 0 to 3 of modes 0 to 5.
const BG_KINDS: [[BgKind; 4]; 6] = [
    [
        BgKind::Regular,
        BgKind::Regular,
        BgKind::Regular,
        BgKind::Regular,
    ],
    [
        BgKind::Regular,
        BgKind::Regular,
        BgKind::Affine,
        BgKind::Absent,
    ],
    [
        BgKind::Absent,
        BgKind::Absent,
        BgKind::Affine,
        BgKind::Affine,
    ],
    [
        BgKind::Absent,
        BgKind::Absent,
        BgKind::Bitmap,
        BgKind::Absent,
    ],
    [
        BgKind::Absent,
        BgKind::Absent,
        BgKind::Bitmap,
        BgKind::Absent,
    ],
    [
        BgKind::Absent,
        BgKind::Absent,
        BgKind::Bitmap,
        BgKind::Absent,
    ],
];

impl BgKind {
    #[tactic(auto, unfolding(crate::specs::Background::bg_kind))]
    pub fn of(mode: usize, bg: usize) -> BgKind
        requires { (mode < 6) × (bg < 4) }
        ensures { result ≡ bg_kind mode bg }
    {
        let row = BG_KINDS[mode];
        row[bg]
    }
}

// A background's line, by the mode that the registers give; one that the mode doesn't have is transparent.
pub fn render_bg(
    colors: Colors,
    registers: &Registers,
    references: References,
    bg: usize,
    line: usize,
) -> [Rgb15; DISPLAY_WIDTH]
    requires { Drawable registers.now references bg line }
    ensures { result ≡ tab (λ column. rgb (background_color colors.entry.vram.now colors.entry.palette.now
        registers.now references bg column line)) 240 }
{
    let control = read_16(registers, BG0CNT + 2 * bg);
    let dispcnt = read_dispcnt(registers);
    match BgKind::of(dispcnt.mode as usize, bg) {
        BgKind::Regular => {
            let regular = RegularLine {
                control,
                hofs: read_hofs(registers, bg),
                vofs: read_vofs(registers, bg),
                line,
            };
            regular.render(colors)
        }
        BgKind::Affine => {
            let affine = read_bg_affine(registers, references, bg);
            render_picture(AffinePicture::from(control), colors, affine)
        }
        BgKind::Bitmap => {
            let affine = read_bg_affine(registers, references, bg);
            render_picture(Bitmap::new(dispcnt, control), colors, affine)
        }
        BgKind::Absent => [Rgb15::TRANSPARENT; DISPLAY_WIDTH],
    }
}
