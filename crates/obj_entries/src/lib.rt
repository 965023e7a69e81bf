// Object entries (gpu/mod.rs, `ObjBufferEntry`): four bytes of a lent row each, which `entry_at`, `put_entry` and
// `put_unless` alone read and write.

#![tactic(auto)]

ghost use Rattle.std.specs.Prelude.{◌≡◌, cond, ◌<◌, length};
ghost use Rattle.refusals.specs.Refusal.{outcome_number};
ghost use Rattle.rows.specs.Cells.{cell_at, put_cell};
ghost use Rattle.obj_entries.specs.Entry.{entries_size, entry_cells, reset_entry, reset_row, well_shaped, shaped_row};
ghost use Rattle.obj_entries.specs.Code.{entry_of_word};
ghost use Rattle.obj_entries.specs.Reset.{Resets};

use memory::DISPLAY_WIDTH;
use refusals::Refusal;
use rgb15::Rgb15;
use rows::{choose, put_word, word_at};

// Bytes of an entry.
const ENTRY_SIZE: usize = 4;

// Bytes of a row, which has an entry for each column of the screen.
pub const ENTRIES_SIZE: usize = ENTRY_SIZE * DISPLAY_WIDTH;

// What a column's entry holds; marks has bit 0 for semi-transparent and bit 1 for window.
#[derive(Clone, Copy)]
pub struct Entry {
    pub color: Rgb15,
    pub priority: u8,
    pub marks: u8,
}

// A row of entries, as its bytes.
pub type Entries = [u8; ENTRIES_SIZE];

// An entry as the little-endian word of its four bytes.
impl From<Entry> for u32 {
    ghost from_gives = { λ e word. entry_of_word word ≡ e };

    fn from(e: Entry) -> u32 {
        u32::from(e.color.0) + 0x1_0000 * u32::from(e.priority) + 0x100_0000 * u32::from(e.marks)
    }
}

impl From<u32> for Entry {
    ghost from_gives = { λ word e. e ≡ entry_of_word word };

    fn from(word: u32) -> Entry {
        Entry {
            color: Rgb15((word % 0x1_0000) as u16),
            priority: (word / 0x1_0000 % 0x100) as u8,
            marks: (word / 0x100_0000) as u8,
        }
    }
}

// Entry k of a row; its four bytes are read as one word, which lets the loops over a row be quick.
pub fn entry_at(entries: &Entries, k: usize) -> Entry
    requires { k < 240 }
    ensures { result ≡ cell_at entry_cells entries.now k }
{
    Entry::from(word_at(entries, k))
}

// Entry k of a row set to e.
pub fn put_entry(entries: &mut Entries, k: usize, e: Entry)
    requires { k < 240 }
    ensures { entries.new ≡ put_cell entry_cells entries.old k e }
{
    put_word(entries, k, u32::from(e));
}

// Entry k of a row set to e, unless it is kept as it is. A word is put in either case, and one word is chosen where four
// bytes would be: a loop over columns then becomes one over vectors.
pub fn put_unless(entries: &mut Entries, k: usize, kept: bool, e: Entry)
    requires { k < 240 }
    ensures { entries.new
        ≡ put_cell entry_cells entries.old k
        (cond kept (cell_at entry_cells entries.old k) e) }
{
    let word = word_at(entries, k);
    put_word(entries, k, choose(kept, word, u32::from(e)));
}

// The entry of a column on which no sprite was drawn.
fn reset_entry() -> Entry
    ensures { result ≡ reset_entry }
{
    Entry {
        color: Rgb15::TRANSPARENT,
        priority: 4,
        marks: 0,
    }
}

// Every entry of a row reset.
pub fn reset_row(entries: &mut [u8])
    requires { length entries.old ≡ entries_size }
    ensures { entries.new ≡ reset_row }
{
    for k in 0..DISPLAY_WIDTH {
        put_word(entries, k, u32::from(reset_entry()));
    }
}

// A row of entries reset, if it has its length.
pub fn reset(entries: &mut [u8]) -> Result<(), Refusal>
    ensures { Resets entries.old (outcome_number result) entries.new }
{
    if entries.len() != ENTRIES_SIZE {
        return Err(Refusal::BadLength);
    }
    reset_row(entries);
    Ok(())
}

// Whether a word is that of a well-shaped entry. Over a whole word each test is one mask: that nothing but the window mark
// differs from the reset entry, or that no bit is set which an entry that shows a pixel has clear.
#[tactic(auto, using(crate::proofs::Shapes::well_shaped_word))]
fn is_well_shaped(word: u32) -> bool
    ensures { result ≡ well_shaped (entry_of_word word) }
{
    let blank = word - 0x200_0000 * (word / 0x200_0000 % 2) == 0x4_8000;
    let shown = (word / 0x8000 % 2 == 0) & (word / 0x4_0000 % 0x40 == 0) & (word / 0x400_0000 == 0);
    blank | shown
}

// Whether every entry of a row is well shaped: all are asked, which is quicker than to stop at the first that isn't.
pub fn shaped_row(entries: &Entries) -> bool
    ensures { result ≡ shaped_row entries.now }
{
    let mut shaped = true;
    for k in 0..DISPLAY_WIDTH {
        shaped &= is_well_shaped(word_at(entries, k));
    }
    shaped
}
