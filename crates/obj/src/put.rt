// What a sprite's pixels make of entries.
ghost use Rattle.std.specs.Prelude.{◌≡◌, cond};
ghost use Rattle.obj.specs.Put.{shown_by, windowed, put_pixel};
ghost use Rattle.obj.specs.Code.{mode_of, put_box};

use crate::BoxRow;
use obj_entries::{Entries, Entry, entry_at, put_unless};
use obj_sprites::X_BIAS;
use rgb15::Rgb15;

// The entry that shows a sprite's pixel; alpha is the semi-transparent mark.
pub fn shown_by(e: Entry, alpha: bool, priority: u8, pixel_color: Rgb15) -> Entry
    ensures { result ≡ shown_by alpha priority pixel_color.0 e }
{
    Entry {
        color: pixel_color,
        priority,
        marks: e.marks / 2 * 2 + u8::from(alpha),
    }
}

// The entry with the window mark set and all else as it was.
#[tactic(auto, unfolding(crate::specs::Put::windowed))]
pub fn windowed(e: Entry) -> Entry
    ensures { result ≡ windowed e }
{
    Entry {
        color: e.color,
        priority: e.priority,
        marks: e.marks / 4 * 4 + 2 + e.marks % 2,
    }
}

// What a pixel is put as: the entry stays if it is kept, and else becomes another.
#[derive(Clone, Copy)]
pub struct Put {
    pub kept: bool,
    pub entry: Entry,
}

impl Put {
    // What becomes of the entry.
    pub fn over(self, e: Entry) -> Entry
        ensures { result ≡ cond self.kept e self.entry }
    {
        if self.kept { e } else { self.entry }
    }
}

// A pixel of a visible sprite or, under WINDOW, of a window sprite, which tests no priority and shows no colour.
pub fn pixel<const WINDOW: bool>(e: Entry, alpha: bool, priority: u8, pixel_color: Rgb15) -> Put
    ensures { cond result.kept e result.entry ≡ put_pixel (mode_of WINDOW alpha) priority pixel_color.0 e }
{
    let clear = pixel_color.is_transparent();
    if WINDOW {
        Put {
            kept: clear,
            entry: windowed(e),
        }
    } else {
        Put {
            kept: (e.priority <= priority) | clear,
            entry: shown_by(e, alpha, priority, pixel_color),
        }
    }
}

// A box's colours put in its columns. The row is a copy and nothing else is read in the loop, so that it becomes one over
// vectors.
pub fn put_pixels<const WINDOW: bool>(entries: &mut Entries, row: BoxRow, alpha: bool, priority: u8)
    ensures { entries.new
        ≡ put_box (mode_of WINDOW alpha) priority row.colors row.left row.span.start row.span.end entries.old }
{
    for column in row.span.start..row.span.end {
        let pixel_color = row.colors[column + X_BIAS - row.left];
        let put = pixel::<WINDOW>(entry_at(entries, column), alpha, priority, pixel_color);
        put_unless(entries, column, put.kept, put.entry);
    }
}
