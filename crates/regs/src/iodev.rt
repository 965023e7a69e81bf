// Registers read from the lent bytes, at their I/O offsets (iodev.rs).
ghost use Rattle.std.specs.Prelude.{◌≡◌, ◌≤◌, ◌<◌};
ghost use Rattle.regs.specs.Registers.{dispcnt, bgcnt, hofs, vofs, pa, pc};
ghost use Rattle.regs.specs.Display.{DisplayControlOf};
ghost use Rattle.regs.specs.Background.{BgControlOf};

use crate::{BgControl, DisplayControl};
use memory::{Registers, read_16};

// The I/O offsets of the registers that a line is drawn from.
pub const DISPCNT: usize = 0x00;

pub const BG0CNT: usize = 0x08;

pub const BG0HOFS: usize = 0x10;

pub const BG0VOFS: usize = 0x12;

pub const BG2PA: usize = 0x20;

pub const BG2PC: usize = 0x24;

pub const WIN0H: usize = 0x40;

pub const WIN1H: usize = 0x42;

pub const WIN0V: usize = 0x44;

pub const WIN1V: usize = 0x46;

pub const WININ: usize = 0x48;

pub const WINOUT: usize = 0x4a;

pub const BLDCNT: usize = 0x50;

pub const BLDALPHA: usize = 0x52;

pub const BLDY: usize = 0x54;

pub fn read_dispcnt(registers: &Registers) -> DisplayControl
    ensures { DisplayControlOf (dispcnt registers.now) result }
{
    DisplayControl::from(read_16(registers, DISPCNT))
}

pub fn read_bgcnt(registers: &Registers, bg: usize) -> BgControl
    requires { bg < 4 }
    ensures { BgControlOf (bgcnt registers.now bg) result }
{
    BgControl::from(read_16(registers, BG0CNT + 2 * bg))
}

// The offsets of a regular background, of which nine bits count.
pub fn read_hofs(registers: &Registers, bg: usize) -> usize
    requires { bg < 4 }
    ensures { result ≡ hofs registers.now bg }
{
    read_16(registers, BG0HOFS + 4 * bg) as usize % 512
}

pub fn read_vofs(registers: &Registers, bg: usize) -> usize
    requires { bg < 4 }
    ensures { result ≡ vofs registers.now bg }
{
    read_16(registers, BG0VOFS + 4 * bg) as usize % 512
}

// What a column adds to x and y of background 2 or 3 as an affine one, each as its word.
pub fn read_pa(registers: &Registers, bg: usize) -> u16
    requires { (2 ≤ bg) × (bg < 4) }
    ensures { result ≡ pa registers.now bg }
{
    read_16(registers, BG2PA + 0x10 * (bg - 2))
}

pub fn read_pc(registers: &Registers, bg: usize) -> u16
    requires { (2 ≤ bg) × (bg < 4) }
    ensures { result ≡ pc registers.now bg }
{
    read_16(registers, BG2PC + 0x10 * (bg - 2))
}
