// Sprites, from their attributes to the colour of a pixel (gpu/render/obj.rs). The attributes have a file of their own.

#![tactic(auto)]

ghost use Rattle.std.specs.Prelude.{◌≡◌, ◌%◌, ◌<◌};
ghost use Rattle.obj_sprites.specs.Attrs.{sprite};
ghost use Rattle.obj_sprites.specs.Tiles.{tiles_start};

mod attrs;
mod sprite;
mod view;

use attrs::OVRAM;
pub use attrs::{BOX_MAX, ObjAttrs, ObjMode, ObjType, X_BIAS, is_inside};
use memory::{Oam, read_16};
pub use sprite::Sprite;
pub use view::View;

// Where the sprites' half of the palette starts.
pub const PALRAM_OFS_FG: usize = 0x200;

pub const ATTRS_SIZE: usize = 2 * 3 + 2;

pub const OBJ_COUNT: usize = 128;

const VRAM_OBJ_TILES_START_BITMAP: usize = 0x1_4000;

// Sprite obj of OAM.
pub fn read_obj_attrs(oam: &Oam, obj: usize) -> ObjAttrs
    requires { obj < 128 }
    ensures { result ≡ sprite oam.now obj }
{
    let addr = ATTRS_SIZE * obj;
    ObjAttrs::new(
        read_16(oam, addr),
        read_16(oam, addr + 2),
        read_16(oam, addr + 4),
    )
}

// Where sprite tiles start: at a whole tile of either format.
pub fn obj_tiles_start(mode: u16) -> usize
    ensures { (result ≡ tiles_start mode) × (result % 64 ≡ 0) }
{
    if mode < 3 {
        OVRAM
    } else {
        VRAM_OBJ_TILES_START_BITMAP
    }
}
