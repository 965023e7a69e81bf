// Windows: their registers decoded and read (gpu/window.rs, regs.rs, iodev.rs).

#![tactic(auto)]

ghost use Rattle.std.specs.Prelude.{◌≡◌, ◌≤◌, ◌<◌};
ghost use Rattle.bits.specs.Bits.{bits};
ghost use Rattle.memory.specs.Sizes.{display_width, display_height};
ghost use Rattle.regs.specs.Registers.{winout_flags, winobj_flags};
ghost use Rattle.regs_window.specs.Windows.{permits, everything, far_edge, right_edge, bottom_edge, in_rows};
ghost use Rattle.regs_window.specs.Windows.{WindowOf, Window0Of, Window1Of};

use memory::{DISPLAY_HEIGHT, DISPLAY_WIDTH, Registers, read_16};
use regs::iodev::{WIN0H, WIN0V, WIN1H, WIN1V, WININ, WINOUT};

// What a region permits, as six bits: backgrounds 0 to 3, objects, effects.
#[derive(Clone, Copy)]
pub struct WindowFlags(pub u16);

impl From<u16> for WindowFlags {
    ghost from_gives = { λ value flags. flags.0 ≡ bits 5 0 value };

    fn from(value: u16) -> WindowFlags {
        WindowFlags(value % 0x40)
    }
}

impl WindowFlags {
    // Everything permitted.
    pub fn all() -> WindowFlags
        ensures { result.0 ≡ everything }
    {
        WindowFlags(0x3f)
    }

    pub fn sfx_enabled(self) -> bool
        ensures { result ≡ permits self.0 5 }
    {
        self.0 / 0x20 % 2 == 1
    }

    pub fn bg_enabled(self, bg: usize) -> bool
        requires { bg < 4 }
        ensures { result ≡ permits self.0 bg }
    {
        (self.0 >> bg) % 2 == 1
    }

    pub fn obj_enabled(self) -> bool
        ensures { result ≡ permits self.0 4 }
    {
        self.0 / 0x10 % 2 == 1
    }
}

#[derive(Clone, Copy)]
pub struct Window {
    pub left: u8,
    pub right: u8,
    pub top: u8,
    pub bottom: u8,
    pub flags: WindowFlags,
}

// A right or bottom edge, which counts as the screen's if it lies beyond that or below the near edge.
fn far_edge(near: usize, far: usize, screen: usize) -> usize
    ensures { (result ≡ far_edge screen near far) × (result ≤ screen) }
{
    if far > screen {
        return screen;
    }
    if far < near { screen } else { far }
}

impl Window {
    // The window of its two words, H and V, and of what it permits.
    pub fn new(h: u16, v: u16, flags: WindowFlags) -> Window
        ensures { WindowOf h v flags.0 result }
    {
        let [right, left] = h.to_le_bytes();
        let [bottom, top] = v.to_le_bytes();
        Window {
            left,
            right,
            top,
            bottom,
            flags,
        }
    }

    pub fn left(self) -> usize
        ensures { result ≡ self.left }
    {
        usize::from(self.left)
    }

    pub fn right(self) -> usize
        ensures { (result ≡ right_edge self.left self.right) × (result ≤ display_width) }
    {
        far_edge(
            usize::from(self.left),
            usize::from(self.right),
            DISPLAY_WIDTH,
        )
    }

    pub fn top(self) -> usize
        ensures { result ≡ self.top }
    {
        usize::from(self.top)
    }

    pub fn bottom(self) -> usize
        ensures { (result ≡ bottom_edge self.top self.bottom) × (result ≤ display_height) }
    {
        far_edge(
            usize::from(self.top),
            usize::from(self.bottom),
            DISPLAY_HEIGHT,
        )
    }

    // Whether the window's rows hold y.
    pub fn contains_y(self, y: usize) -> bool
        ensures { result ≡ in_rows self.top self.bottom y }
    {
        let top = self.top();
        let bottom = self.bottom();
        (y >= top) & (y < bottom)
    }
}

pub fn read_win0(registers: &Registers) -> Window
    ensures { Window0Of registers.now result }
{
    let flags = WindowFlags::from(read_16(registers, WININ));
    Window::new(read_16(registers, WIN0H), read_16(registers, WIN0V), flags)
}

pub fn read_win1(registers: &Registers) -> Window
    ensures { Window1Of registers.now result }
{
    let flags = WindowFlags::from(read_16(registers, WININ) / 0x100);
    Window::new(read_16(registers, WIN1H), read_16(registers, WIN1V), flags)
}

// What is permitted outside the windows.
pub fn read_winout_flags(registers: &Registers) -> WindowFlags
    ensures { result.0 ≡ winout_flags registers.now }
{
    WindowFlags::from(read_16(registers, WINOUT))
}

// What is permitted in the object window.
pub fn read_winobj_flags(registers: &Registers) -> WindowFlags
    ensures { result.0 ≡ winobj_flags registers.now }
{
    WindowFlags::from(read_16(registers, WINOUT) / 0x100)
}
