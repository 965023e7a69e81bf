// Regions of a line (gpu/sfx.rs, the walks of `finalize_scanline`; gpu/window.rs).

#![tactic(auto)]

ghost use Rattle.std.specs.Prelude.{◌≡◌, cond, ◌&&◌, ◌<◌};
ghost use Rattle.rows.specs.Cells.{cell_at};
ghost use Rattle.rows.specs.Tab.{tab};
ghost use Rattle.regs_window.specs.Windows.{in_columns, in_rows};
ghost use Rattle.obj_entries.specs.Entry.{entry_cells, window_mark};
ghost use Rattle.sfx_regions.specs.Region.{permitted, in_window0, in_window1};
ghost use Rattle.sfx_regions.specs.Code.{region_row, ColumnsOf, walked_row};

use memory::{DISPLAY_WIDTH, Registers};
use obj_entries::{Entries, entry_at};
use regs::Reading;
use regs::iodev::read_dispcnt;
use regs_window::{
    Window, WindowFlags, read_win0, read_win1, read_winobj_flags, read_winout_flags,
};
use sfx_marks::{Columns, Marks, paint};
use std::array;

// The Rust's kinds of window: a column's region.
#[derive(Clone, Copy)]
pub enum WindowType {
    Win0,
    Win1,
    WinObj,
    WinOut,
    WinNone,
}

// A word for each region; what the words say is the caller's.
#[derive(Clone, Copy)]
pub struct RegionWords {
    pub win0: u16,
    pub win1: u16,
    pub winobj: u16,
    pub winout: u16,
    pub winnone: u16,
}

// What a region permits.
pub fn window_flags(registers: &Registers, kind: WindowType) -> WindowFlags
    ensures { result.0 ≡ permitted registers.now kind }
{
    match kind {
        WindowType::Win0 => read_win0(registers).flags,
        WindowType::Win1 => read_win1(registers).flags,
        WindowType::WinObj => read_winobj_flags(registers),
        WindowType::WinOut => read_winout_flags(registers),
        WindowType::WinNone => WindowFlags::all(),
    }
}

// The columns that a window claims on a line: none where it is off or its rows don't hold the line.
fn claimed_columns(on: bool, rows: Window, columns: Window, line: usize) -> Columns
    ensures { ColumnsOf (λ x. (on && in_rows rows.top rows.bottom line) && in_columns columns.left columns.right x) result }
{
    let left = columns.left();
    let right = columns.right();
    if on & rows.contains_y(line) & (left < right) {
        return Columns { left, right };
    }
    Columns { left: 0, right: 0 }
}

// The columns that window 0 claims.
pub fn win0_columns(registers: &Registers, line: usize) -> Columns
    ensures { ColumnsOf (λ x. in_window0 registers.now x line) result }
{
    let dispcnt = read_dispcnt(registers);
    let win0 = read_win0(registers);
    claimed_columns(dispcnt.enable_window0, win0, win0, line)
}

// The columns that window 1 claims; the Rust tests its rows, and then walks window 0's columns.
pub fn win1_columns(registers: &Registers, reading: Reading, line: usize) -> Columns
    ensures { ColumnsOf (λ x. in_window1 reading registers.now x line) result }
{
    let dispcnt = read_dispcnt(registers);
    let win0 = read_win0(registers);
    let win1 = read_win1(registers);
    match reading {
        Reading::R => claimed_columns(dispcnt.enable_window1, win1, win0, line),
        Reading::H => claimed_columns(dispcnt.enable_window1, win1, win1, line),
    }
}

// The word of a column in the object window or outside, by the entry's mark.
fn unclaimed_word(entries: &Entries, x: usize, winobj: u16, winout: u16) -> u16
    requires { x < 240 }
    ensures { result ≡ cond (window_mark (cell_at entry_cells entries.now x)) winobj winout }
{
    let e = entry_at(entries, x);
    if e.marks / 0x2 % 2 == 1 {
        winobj
    } else {
        winout
    }
}

// The row of a line on which windows 0 and 1 claim nothing.
fn unclaimed_row(
    entries: &Entries,
    obj_window: bool,
    winobj: u16,
    winout: u16,
) -> [u16; DISPLAY_WIDTH]
    ensures { result ≡ tab (λ x. cond (obj_window && window_mark (cell_at entry_cells entries.now x)) winobj winout) 240 }
{
    if obj_window {
        array::from_fn(|x| unclaimed_word(entries, x, winobj, winout))
    } else {
        [winout; DISPLAY_WIDTH]
    }
}

// The row of a line with windows on. Each column starts as window 0's and is given away once at most, by the marks: what window 1
// has and window 0 hasn't, and then what neither has. Once the occupied columns are all 240, nothing is left to give.
fn windowed_row(
    entries: &Entries,
    obj_window: bool,
    win0: Columns,
    win1: Columns,
    words: RegionWords,
) -> [u16; DISPLAY_WIDTH]
    ensures { result ≡ walked_row entries.now obj_window win0 win1 words }
{
    let word0 = words.win0;
    let word1 = words.win1;
    let first = Marks::of(win0);
    let mut row = [word0; DISPLAY_WIDTH];
    if first.count() as usize == DISPLAY_WIDTH {
        return row;
    }
    let second = Marks::of(win1).without(first.words);
    paint(&mut row, second.words, &[word1; DISPLAY_WIDTH]);
    let occupied = first.or(second);
    if occupied.count() as usize == DISPLAY_WIDTH {
        return row;
    }
    let line = Columns {
        left: 0,
        right: DISPLAY_WIDTH,
    };
    let left = Marks::of(line).without(occupied.words);
    let rest = unclaimed_row(entries, obj_window, words.winobj, words.winout);
    paint(&mut row, left.words, &rest);
    row
}

// The row of a line: the word of each column's region.
pub fn region_row(
    entries: &Entries,
    registers: &Registers,
    reading: Reading,
    line: usize,
    words: RegionWords,
) -> [u16; DISPLAY_WIDTH]
    ensures { result ≡ region_row reading registers.now entries.now line words }
{
    let dispcnt = read_dispcnt(registers);
    if !dispcnt.is_using_windows() {
        let word = words.winnone;
        return [word; DISPLAY_WIDTH];
    }
    let win0 = win0_columns(registers, line);
    let win1 = win1_columns(registers, reading, line);
    windowed_row(entries, dispcnt.enable_obj_window, win0, win1, words)
}
