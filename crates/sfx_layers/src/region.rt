// What the regions of a line permit (gpu/sfx.rs, `filter_window_backgrounds` and the flags of `finalize_pixel`): a word for
// each region.
ghost use Rattle.std.specs.Prelude.{◌≡◌, ◌≤◌, ◌<◌, get_or, map, None};
ghost use Rattle.bits.specs.Bits.{bit};
ghost use Rattle.rows.specs.Tab.{tab};
ghost use Rattle.sfx_regions.specs.Region.{permitted};
ghost use Rattle.sfx_sorting.specs.Code.{number_in};
ghost use Rattle.sfx_layers.specs.Code.{as_bit, permits_place, region_word, column_region};

use crate::layer::bit_of;
use memory::{DISPLAY_WIDTH, Registers};
use obj_entries::Entries;
use regs::Reading;
use regs::iodev::read_dispcnt;
use regs_window::WindowFlags;
use sfx_regions::{RegionWords, WindowType, region_row, window_flags};
use sfx_sorting::{Background, Place};

// The parts of a region's word, by the number of their bit: 0 to 3 are the backgrounds of the four places, then objects and
// effects.
pub(crate) const OBJECTS_PART: u32 = 4;

pub const EFFECTS_PART: u32 = 5;

// The bits of these two.
const OBJECTS: u16 = 0x10;

pub const EFFECTS: u16 = 0x20;

// Whether a region's word has a bit.
pub fn is_permitted(region: u16, part: u32) -> bool
    requires { part < 16 }
    ensures { result ≡ bit part region }
{
    (region >> part) % 2 == 1
}

// 1 if flags permit the background of place k and it has one, else 0.
fn place_bit(flags: WindowFlags, places: [Option<Background>; 4], k: usize) -> u16
    requires { k < 4 }
    ensures { (result ≡ as_bit (permits_place flags.0 (number_in (get_or places k None)))) × (result ≤ 1) }
{
    match places[k] {
        Some(bg) => bit_of(flags.bg_enabled(bg.number)),
        None => 0,
    }
}

// What a region permits, as a word.
fn region_word(flags: WindowFlags, objects: bool, places: [Option<Background>; 4]) -> u16
    ensures { result ≡ region_word objects (map number_in places) flags.0 }
{
    0x1 * place_bit(flags, places, 0)
        + 0x2 * place_bit(flags, places, 1)
        + 0x4 * place_bit(flags, places, 2)
        + 0x8 * place_bit(flags, places, 3)
        + OBJECTS * bit_of(flags.obj_enabled() & objects)
        + EFFECTS * bit_of(flags.sfx_enabled())
}

// What the region of each column permits.
pub fn line_regions<P: Place>(
    entries: &Entries,
    registers: &Registers,
    reading: Reading,
    line: usize,
    places: [P; 4],
) -> [u16; DISPLAY_WIDTH]
    ensures { result ≡ tab (column_region reading registers.now entries.now (map P.held places) line) 240 }
{
    let places = Background::in_places(places);
    let objects = read_dispcnt(registers).enable_obj;
    let word = |kind: WindowType| -> u16
        ensures { result ≡ region_word objects (map number_in places) (permitted registers.entry.now kind) }
    { region_word(window_flags(registers, kind), objects, places) };
    let words = RegionWords {
        win0: word(WindowType::Win0),
        win1: word(WindowType::Win1),
        winobj: word(WindowType::WinObj),
        winout: word(WindowType::WinOut),
        winnone: word(WindowType::WinNone),
    };
    region_row(entries, registers, reading, line, words)
}
