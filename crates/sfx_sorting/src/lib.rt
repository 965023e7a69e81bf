// The order of backgrounds (gpu/sfx.rs, the sort of `finalize_scanline`).

#![tactic(auto)]

ghost use Rattle.std.specs.Prelude.{◌≡◌, ◌<◌, min, max, map};
ghost use Rattle.regs.specs.Registers.{bgcnt};
ghost use Rattle.regs.specs.Background.{priority};
ghost use Rattle.sfx_sorting.specs.Ordered.{ordered};
ghost use Rattle.sfx_sorting.specs.Code.{number_in, places, sort_key, sorted_keys, key_place};

mod background;
mod places;

pub use background::Background;
use memory::Registers;
pub use places::{NO_BACKGROUND, Place};
use regs::iodev::{read_bgcnt, read_dispcnt};

// The keys of backgrounds that are on are below this, those of the others from it on.
const OFF_KEYS: usize = 4 * NO_BACKGROUND;

// What a background is sorted by.
fn sort_key(registers: &Registers, on: bool, bg: usize) -> usize
    requires { bg < 4 }
    ensures { result ≡ sort_key on (priority (bgcnt registers.now bg)) bg }
{
    let priority = usize::from(read_bgcnt(registers, bg).priority);
    if on { 4 * priority + bg } else { OFF_KEYS + bg }
}

// Four keys in order.
fn sort_keys(a: usize, b: usize, c: usize, d: usize) -> [usize; 4]
    ensures { result ≡ sorted_keys a b c d }
{
    let low_first = a.min(b);
    let high_first = a.max(b);
    let low_second = c.min(d);
    let high_second = c.max(d);
    let low_middle = low_first.max(low_second);
    let high_middle = high_first.min(high_second);
    [
        low_first.min(low_second),
        low_middle.min(high_middle),
        low_middle.max(high_middle),
        high_first.max(high_second),
    ]
}

// The background of a key, if it is on.
fn key_place(key: usize) -> Option<Background>
    ensures { number_in result ≡ key_place key }
{
    Background::numbered(if key < OFF_KEYS {
        key % 4
    } else {
        NO_BACKGROUND
    })
}

// The backgrounds that are on, ordered by priority and number, in four places.
pub fn sort_backgrounds(registers: &Registers) -> [Option<Background>; 4]
    ensures { map number_in result ≡ places (ordered registers.now) }
{
    let on = read_dispcnt(registers).enable_bg;
    let keys = sort_keys(
        sort_key(registers, on[0], 0),
        sort_key(registers, on[1], 1),
        sort_key(registers, on[2], 2),
        sort_key(registers, on[3], 3),
    );
    [
        key_place(keys[0]),
        key_place(keys[1]),
        key_place(keys[2]),
        key_place(keys[3]),
    ]
}
