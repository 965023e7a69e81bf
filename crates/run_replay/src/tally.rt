// What the list has, counted: by group, by number, and of the lines drawn the modes, windows and effects.
use crate::list::{Call, Head, MEMORY_ROOM, Word};
use std::fmt;

// Where each count starts; the groups come first.
const NUMBERS: usize = 13;

const MODES: usize = 25;

const BLANK: usize = 33;

const WINDOWS: usize = 34;

const EFFECTS: usize = 42;

const CALLS: usize = 46;

const COUNTS: usize = 47;

// What each row of counts is, and how many it has.
const ROWS: [(&str, usize); 17] = [
    ("reading R", 1),
    ("reading H", 1),
    ("faulty input", 1),
    ("chains of draws", 1),
    ("one background alone", 1),
    ("lines of the sample", 1),
    ("buffers of another length", 1),
    ("steps", 1),
    ("resets", 1),
    ("reasons", 1),
    ("byte reads", 1),
    ("byte stores", 1),
    ("halfword stores", 1),
    ("numbers 0 to 11", 12),
    ("lines of modes 0 to 7, of forced blank", 9),
    ("lines by the window switches 0 to 7", 8),
    ("lines by the effects 0 to 3", 4),
];

// Where the registers lie that stand behind a palette and an OAM.
const DISPCNT: usize = 0x800;

const BLDCNT: usize = 0x850;

#[derive(Drop)]
pub(crate) struct Tally {
    counts: [u64; COUNTS],
}

impl Tally {
    pub(crate) fn new() -> Tally {
        Tally {
            counts: [0; COUNTS],
        }
    }

    // One more of what a place counts.
    fn count(&mut self, place: usize) {
        if let Some(count) = self.counts.get_mut(place) {
            *count = count.wrapping_add(1);
        }
    }

    // A line that was drawn.
    fn count_line(&mut self, memory: &[u8; MEMORY_ROOM]) {
        let low = usize::from(memory[DISPCNT]);
        if low >= 0x80 {
            self.count(BLANK);
            return;
        }
        self.count(MODES + low % 8);
        self.count(WINDOWS + usize::from(memory[DISPCNT + 1]) / 0x20);
        self.count(EFFECTS + usize::from(memory[BLDCNT]) / 0x40);
    }

    // A record; the memory is that of a draw.
    pub(crate) fn count_record(&mut self, head: &Head, memory: &[u8; MEMORY_ROOM]) {
        let number = head.size(Word::Number);
        self.count(head.size(Word::Group));
        self.count(NUMBERS + number);
        self.count(CALLS);
        if head.call() == Call::Draw && number == 0 {
            self.count_line(memory);
        }
    }
}

impl fmt::Display for Tally {
    fn fmt<W: fmt::Write>(&self, f: &mut fmt::Formatter<W>) -> fmt::Result {
        let mut counts = self.counts.iter();
        for (name, len) in ROWS {
            write!(f, "{name}:")?;
            for count in counts.by_ref().take(len) {
                write!(f, " {count}")?;
            }
            writeln!(f)?;
        }
        let calls = self.counts[CALLS];
        writeln!(f, "{calls} calls, 0 differences")
    }
}
