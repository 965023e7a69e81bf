// How the sprites of a line are read: by which reading, and by display control.
ghost use Rattle.std.specs.Prelude.{◌≡◌, ◌%◌, ◌<◌};

use crate::obj_tiles_start;
use memory::Registers;
use regs::iodev::read_dispcnt;
use regs::{ObjMapping, Reading};

// A line of the screen, and where sprite tiles start, which is at a whole tile of either format.
#[derive(Clone, Copy)]
pub struct View {
    pub reading: Reading,
    pub mapping: ObjMapping,
    pub tiles_start: usize,
    pub line: usize,
    pub ghost whole: { tiles_start % 64 ≡ 0 },
    pub ghost in_screen: { line < 160 },
}

impl View {
    ghost use Rattle.obj_sprites.specs.Code.{ViewOf};

    pub fn new(registers: &Registers, reading: Reading, line: usize) -> View
        requires { line < 160 }
        ensures { ViewOf registers.now reading line result }
    {
        let dispcnt = read_dispcnt(registers);
        View {
            reading,
            mapping: dispcnt.obj_mapping(),
            tiles_start: obj_tiles_start(dispcnt.mode),
            line,
        }
    }
}
