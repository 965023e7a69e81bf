// The region of one column (gpu/sfx.rs, the walks of `finalize_scanline`; gpu/window.rs).

#![tactic(auto)]

ghost use Rattle.std.specs.Prelude.{◌≡◌};
ghost use Rattle.sfx_marks.specs.Code.{holds};
ghost use Rattle.sfx_regions.specs.Region.{region};

use memory::Registers;
use regs::Reading;
use regs::iodev::read_dispcnt;
use sfx_marks::Columns;
use sfx_regions::{WindowType, win0_columns, win1_columns};

// Whether a column is one of a span's.
#[tactic(auto, unfolding(rows::specs::Below::between))]
fn holds(columns: Columns, column: usize) -> bool
    ensures { result ≡ holds columns column }
{
    (columns.left <= column) & (column < columns.right)
}

// The first region that claims a column; mark is whether its entry has the window mark.
pub fn column_region(
    registers: &Registers,
    reading: Reading,
    mark: bool,
    column: usize,
    line: usize,
) -> WindowType
    ensures { result ≡ region reading registers.now mark column line }
{
    let dispcnt = read_dispcnt(registers);
    if !dispcnt.is_using_windows() {
        return WindowType::WinNone;
    }
    let first = win0_columns(registers, line);
    if holds(first, column) {
        return WindowType::Win0;
    }
    let second = win1_columns(registers, reading, line);
    if holds(second, column) {
        return WindowType::Win1;
    }
    if dispcnt.enable_obj_window & mark {
        WindowType::WinObj
    } else {
        WindowType::WinOut
    }
}
