// The pass over sprites at one column (gpu/render/obj.rs): what a draw makes of that column's entry, and nothing is written.

#![tactic(auto)]

ghost use Rattle.std.specs.Prelude.{◌≡◌, ◌≤◌, ◌<◌};
ghost use Rattle.obj_sprites.specs.Oam.{matrix};
ghost use Rattle.obj_sprites.specs.Color.{normal_color, affine_obj_color};
ghost use Rattle.obj_sprites.specs.Sprite.{source, typed_color};
ghost use Rattle.obj_sprites.specs.Code.{OnLine, source_of};
ghost use Rattle.obj_sprites.specs.declared.attrs.ObjType.{ObjType};
ghost use Rattle.obj.specs.Put.{put_pixel, sprite_step, entry_up_to};
ghost use Rattle.explain_obj.specs.Code.{PlaceOf};

use memory::{Colors, Memory};
use obj::pixel;
use obj_entries::Entry;
use obj_sprites::{
    OBJ_COUNT, ObjAttrs, ObjMode, ObjType, Sprite, View, X_BIAS, is_inside, read_obj_attrs,
};
use obj_texels::{point_color, turn_line};
use regs::Reading;
use rgb15::Rgb15;
use tiles::flip;

// Which column of a box a column of the screen is, if it is one; left is the box's left edge plus 272.
fn box_column(left: usize, width: usize, column: usize) -> Option<usize>
    requires { (left ≤ 511) × (width ≤ 128) × (column < 240) }
    ensures { PlaceOf left width column result }
{
    let at = column + X_BIAS;
    if is_inside(at, left, width) {
        Some(at - left)
    } else {
        None
    }
}

// The colour of an affine sprite at a column.
fn affine_obj_color(memory: &Memory, attrs: ObjAttrs, view: View, column: usize) -> Rgb15
    requires { OnLine view.reading attrs view.line × (column < 240) }
    ensures { result.0
        ≡ affine_obj_color view.reading view.mapping memory.now.vram memory.now.palette
        (matrix memory.now.oam attrs.affine_index) attrs view.line column }
{
    match box_column(attrs.left(view.reading), attrs.box_width(), column) {
        Some(i) => {
            let turn = turn_line(memory.oam, attrs, view.reading, view.line);
            let sprite = Sprite::new(attrs, view.reading, view.mapping);
            let colors = Colors {
                vram: memory.vram,
                palette: memory.palette,
            };
            point_color(colors, &sprite, turn, i)
        }
        None => Rgb15::TRANSPARENT,
    }
}

// The colour of a normal sprite at a column.
fn normal_color(memory: &Memory, attrs: ObjAttrs, view: View, column: usize) -> Rgb15
    requires { OnLine view.reading attrs view.line × (attrs.objtype ≡ ObjType.Normal) × (column < 240) }
    ensures { result.0
        ≡ normal_color view.reading view.mapping memory.now.vram memory.now.palette attrs view.line column }
{
    match box_column(attrs.left(view.reading), attrs.width, column) {
        Some(i) => {
            let sprite = Sprite::new(attrs, view.reading, view.mapping);
            let colors = Colors {
                vram: memory.vram,
                palette: memory.palette,
            };
            sprite.texel(
                colors,
                flip(attrs.h_flip, attrs.width, i),
                sprite.shown_row(view.line),
            )
        }
        None => Rgb15::TRANSPARENT,
    }
}

// The colour of a sprite at a column, by its type.
fn typed_color(memory: &Memory, attrs: ObjAttrs, view: View, column: usize) -> Rgb15
    requires { OnLine view.reading attrs view.line × (column < 240) }
    ensures { result.0
        ≡ typed_color attrs.objtype view.reading view.mapping memory.now.vram memory.now.palette
        memory.now.oam attrs view.line column }
{
    let objtype = attrs.objtype;
    match objtype {
        ObjType::Hidden => Rgb15::TRANSPARENT,
        ObjType::Normal => normal_color(memory, attrs, view, column),
        ObjType::Affine | ObjType::AffineDoubleSize => affine_obj_color(
            memory, attrs, view, column,
        ),
    }
}

// The entry with a sprite's pixel put on it, by the sprite's mode.
fn put_pixel(e: Entry, objmode: ObjMode, priority: u8, pixel_color: Rgb15) -> Entry
    ensures { result ≡ put_pixel objmode priority pixel_color.0 e }
{
    match objmode {
        ObjMode::Normal => pixel::<false>(e, false, priority, pixel_color).over(e),
        ObjMode::Sfx => pixel::<false>(e, true, priority, pixel_color).over(e),
        ObjMode::Window => pixel::<true>(e, false, priority, pixel_color).over(e),
        ObjMode::Forbidden => e,
    }
}

// What sprite obj makes of a column's entry.
fn sprite_step(e: Entry, memory: &Memory, view: View, obj: usize, column: usize) -> Entry
    requires { (obj < 128) × (column < 240) }
    ensures { result ≡ sprite_step view.reading (source_of memory.now view) view.line obj column e }
{
    if !read_obj_attrs(memory.oam, obj).is_near(view.reading, view.line) {
        return e;
    }
    let attrs = read_obj_attrs(memory.oam, obj);
    if !attrs.is_drawn(view) {
        return e;
    }
    let pixel_color = typed_color(memory, attrs, view, column);
    put_pixel(e, attrs.objmode, attrs.priority, pixel_color)
}

// What the sprites of a draw make of a column's entry.
pub fn column_entry(
    e: Entry,
    memory: &Memory,
    reading: Reading,
    line: usize,
    column: usize,
) -> Entry
    requires { (line < 160) × (column < 240) }
    ensures { result ≡ entry_up_to reading (source memory.now) line 128 column e }
{
    let view = View::new(memory.registers, reading, line);
    let mut entry = e;
    for obj in 0..OBJ_COUNT {
        entry = sprite_step(entry, memory, view, obj, column);
    }
    entry
}
