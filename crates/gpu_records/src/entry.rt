// Object entries as the Rust has them (gpu/mod.rs, `ObjBufferEntry`), and as the bytes of a row.
ghost use Rattle.std.specs.Prelude.{◌≡◌};
ghost use Rattle.gpu_records.specs.Entries.{entry_of_record, record_of, row_bytes, records_in};

use memory::DISPLAY_WIDTH;
use obj_entries::{ENTRIES_SIZE, Entries, Entry, entry_at, put_entry};
use std::array;

// A colour as rgb15 has it, with a layout that a host can rely on.
#[repr(C)]
#[derive(Clone, Copy)]
pub struct Rgb15(pub u16);

// What a column's entry holds.
#[repr(C)]
#[derive(Clone, Copy)]
pub struct ObjBufferEntry {
    pub window: bool,
    pub alpha: bool,
    pub color: Rgb15,
    pub priority: u16,
}

// A row of records, one for each column of the screen.
pub type Records = [ObjBufferEntry; DISPLAY_WIDTH];

// The entry of a record. A priority is judged before it is narrowed, so that 256 doesn't become 0.
impl From<ObjBufferEntry> for Entry {
    ghost from_gives = { λ r e. e ≡ entry_of_record r };

    #[tactic(auto, unfolding(crate::specs::Entries::entry_of_record))]
    fn from(r: ObjBufferEntry) -> Entry {
        Entry {
            color: rgb15::Rgb15(r.color.0),
            priority: r.priority.min(255) as u8,
            marks: u8::from(r.alpha) + 2 * u8::from(r.window),
        }
    }
}

impl From<Entry> for ObjBufferEntry {
    ghost from_gives = { λ e r. r ≡ record_of e };

    #[tactic(auto, unfolding(crate::specs::Entries::record_of))]
    fn from(e: Entry) -> ObjBufferEntry {
        ObjBufferEntry {
            window: e.marks / 0x2 % 2 == 1,
            alpha: e.marks / 0x1 % 2 == 1,
            color: Rgb15(e.color.0),
            priority: u16::from(e.priority),
        }
    }
}

// The bytes of a row.
pub fn encode_row(records: &Records) -> Entries
    ensures { result ≡ row_bytes records.now }
{
    let mut bytes = [0; ENTRIES_SIZE];
    for k in 0..DISPLAY_WIDTH {
        put_entry(&mut bytes, k, Entry::from(records[k]));
    }
    bytes
}

// The records of a row's bytes.
pub fn decode_row(bytes: &Entries) -> Records
    ensures { result ≡ records_in bytes.now }
{
    array::from_fn(|k| ObjBufferEntry::from(entry_at(bytes, k)))
}
