// The pass over sprites (gpu/render/obj.rs): which of their pixels a row of entries shows.

#![tactic(auto)]

ghost use Rattle.std.specs.Prelude.{◌≡◌, ◌+◌, ◌-◌, ◌%◌, ◌≤◌, ◌<◌, min};
ghost use Rattle.obj_sprites.specs.Oam.{matrix};
ghost use Rattle.obj_sprites.specs.Attrs.{sprite};
ghost use Rattle.obj_sprites.specs.Color.{normal_color, affine_obj_color};
ghost use Rattle.obj_sprites.specs.Sprite.{source, typed_color, sprite_color};
ghost use Rattle.obj_sprites.specs.Code.{OnLine, source_of};
ghost use Rattle.obj_sprites.specs.declared.attrs.ObjType.{ObjType};
ghost use Rattle.obj.specs.Put.{put_sprites};
ghost use Rattle.obj.specs.Code.{put_row, put_box, Walked, WalkedBack, Closed, PassedOver};

mod put;
mod row;

use memory::{Colors, DISPLAY_WIDTH, Memory};
use obj_entries::{Entries, entry_at};
use obj_sprites::{
    BOX_MAX, OBJ_COUNT, ObjAttrs, ObjMode, ObjType, Sprite, View, X_BIAS, read_obj_attrs,
};
use obj_texels::{Span, affine_row, texel_row, turn_line};
use put::put_pixels;
pub use put::{Put, pixel, shown_by, windowed};
use regs::Reading;
use rgb15::Rgb15;
pub use row::BoxRow;

// The columns of the screen that a box covers, by its left edge plus 272 and its width.
fn covered(left: usize, width: usize) -> Span
    requires { (left ≤ 511) × (width ≤ 128) }
    ensures { (result.start ≡ left - 272) × (result.end ≡ min 240 (left + width - 272)) }
{
    Span {
        start: left.saturating_sub(X_BIAS),
        end: (left + width).saturating_sub(X_BIAS).min(DISPLAY_WIDTH),
    }
}

// The first column of a span whose entry's priority is above a sprite's, or the span's end.
fn first_open(entries: &Entries, priority: u8, span: Span) -> usize
    requires { span.end ≤ 240 }
    ensures { Walked (Closed entries.now priority) span.start span.end result }
{
    for column in span.start..span.end {
        if priority < entry_at(entries, column).priority {
            return column;
        }
    }
    span.end
}

// The column past the last one of a span whose entry's priority is above a sprite's, or the span's start.
fn last_open(entries: &Entries, priority: u8, span: Span) -> usize
    requires { span.end ≤ 240 }
    ensures { WalkedBack (Closed entries.now priority) span.start span.end result }
{
    for column in (span.start..span.end).rev() {
        if priority < entry_at(entries, column).priority {
            return column + 1;
        }
    }
    span.start
}

// A span without the columns at both ends whose entry's priority is no greater than a sprite's.
#[tactic(auto, using(crate::proofs::Skip::walked_short))]
fn trimmed(entries: &Entries, priority: u8, span: Span) -> Span
    requires { span.end ≤ 240 }
    ensures { Walked (Closed entries.now priority) span.start result.end result.start
        × WalkedBack (Closed entries.now priority) result.start span.end result.end }
{
    let start = first_open(entries, priority, span);
    let rest = Span {
        start,
        end: span.end,
    };
    Span {
        start,
        end: last_open(entries, priority, rest),
    }
}

// The columns of a span without those at both ends where the sprite is passed over: no colour is read for them.
fn open_columns(entries: &Entries, attrs: ObjAttrs, span: Span) -> Span
    requires { span.end ≤ 240 }
    ensures { Walked (PassedOver entries.now attrs) span.start result.end result.start
        × WalkedBack (PassedOver entries.now attrs) result.start span.end result.end }
{
    let objmode = attrs.objmode;
    match objmode {
        ObjMode::Normal | ObjMode::Sfx => trimmed(entries, attrs.priority, span),
        ObjMode::Window | ObjMode::Forbidden => span,
    }
}

// The pixels of an affine sprite.
fn render_affine_obj(entries: &mut Entries, memory: &Memory, attrs: ObjAttrs, view: View)
    requires { OnLine view.reading attrs view.line }
    ensures { entries.new
        ≡ put_row attrs
        (affine_obj_color view.reading view.mapping memory.now.vram memory.now.palette
        (matrix memory.now.oam attrs.affine_index) attrs view.line)
        entries.old }
{
    let left = attrs.left(view.reading);
    let open = open_columns(entries, attrs, covered(left, attrs.box_width()));
    if open.end <= open.start {
        return;
    }
    let turn = turn_line(memory.oam, attrs, view.reading, view.line);
    let columns = Span {
        start: open.start + X_BIAS - left,
        end: open.end + X_BIAS - left,
    };
    let sprite = Sprite::new(attrs, view.reading, view.mapping);
    let colors = Colors {
        vram: memory.vram,
        palette: memory.palette,
    };
    let row = affine_row(colors, &sprite, turn, columns);
    write_obj_pixels(entries, attrs, row, left, open);
}

// The pixels of a normal sprite.
fn render_normal_obj(entries: &mut Entries, memory: &Memory, attrs: ObjAttrs, view: View)
    requires { OnLine view.reading attrs view.line × (attrs.objtype ≡ ObjType.Normal) × (attrs.width % 8 ≡ 0) }
    ensures { entries.new
        ≡ put_row attrs
        (normal_color view.reading view.mapping memory.now.vram memory.now.palette attrs view.line)
        entries.old }
{
    let left = attrs.left(view.reading);
    let open = open_columns(entries, attrs, covered(left, attrs.width));
    if open.end <= open.start {
        return;
    }
    let sprite = Sprite::new(attrs, view.reading, view.mapping);
    let colors = Colors {
        vram: memory.vram,
        palette: memory.palette,
    };
    let row = texel_row(colors, &sprite, sprite.shown_row(view.line));
    write_obj_pixels(entries, attrs, row, left, open);
}

// A sprite's colours put in a box's columns, by its mode. The box's row is made here: where a function returns before, a local
// struct of its size is cleared for nothing.
fn write_obj_pixels(
    entries: &mut Entries,
    attrs: ObjAttrs,
    colors: [Rgb15; BOX_MAX],
    left: usize,
    span: Span,
)
    requires { (span.end ≤ 240) × (left ≤ span.start + 272) × (span.end + 272 ≤ left + 128) }
    ensures { entries.new
        ≡ put_box attrs.objmode attrs.priority colors left span.start span.end entries.old }
{
    let row = BoxRow { colors, left, span };
    let objmode = attrs.objmode;
    match objmode {
        ObjMode::Normal => put_pixels::<false>(entries, row, false, attrs.priority),
        ObjMode::Sfx => put_pixels::<false>(entries, row, true, attrs.priority),
        ObjMode::Window => put_pixels::<true>(entries, row, false, attrs.priority),
        ObjMode::Forbidden => {}
    }
}

// The pixels of a sprite, by its type.
fn render_obj(entries: &mut Entries, memory: &Memory, attrs: ObjAttrs, view: View)
    requires { OnLine view.reading attrs view.line × (attrs.width % 8 ≡ 0) }
    ensures { entries.new
        ≡ put_row attrs
        (typed_color attrs.objtype view.reading view.mapping memory.now.vram memory.now.palette memory.now.oam
        attrs view.line)
        entries.old }
{
    let objtype = attrs.objtype;
    match objtype {
        ObjType::Hidden => {}
        ObjType::Normal => render_normal_obj(entries, memory, attrs, view),
        ObjType::Affine | ObjType::AffineDoubleSize => {
            render_affine_obj(entries, memory, attrs, view);
        }
    }
}

// The pixels of sprite obj, if it is drawn on the line.
fn put_sprite(entries: &mut Entries, memory: &Memory, view: View, obj: usize)
    requires { obj < 128 }
    ensures { entries.new
        ≡ put_row (sprite memory.now.oam obj)
        (sprite_color view.reading (source_of memory.now view) view.line obj) entries.old }
{
    if read_obj_attrs(memory.oam, obj).is_near(view.reading, view.line) {
        let attrs = read_obj_attrs(memory.oam, obj);
        if attrs.is_drawn(view) {
            render_obj(entries, memory, attrs, view);
        }
    }
}

// The pixels of a line's sprites put in its row of entries.
pub fn render_objs(entries: &mut Entries, memory: &Memory, reading: Reading, line: usize)
    requires { line < 160 }
    ensures { entries.new ≡ put_sprites reading (source memory.now) line entries.old }
{
    let view = View::new(memory.registers, reading, line);
    for obj in 0..OBJ_COUNT {
        put_sprite(entries, memory, view, obj);
    }
}
