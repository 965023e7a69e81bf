// Columns of a line as marks, 64 in a word, and rows that are painted by them (gpu/sfx.rs, `occupied` of `finalize_scanline`).

#![tactic(auto)]

ghost use Rattle.std.specs.Prelude.{◌≡◌, not, ◌&&◌, ◌||◌, ◌+◌, ◌-◌, ◌^◌, ◌≤◌, min};
ghost use Rattle.std.specs.Int.Count.{ones};
ghost use Rattle.sfx_marks.specs.Code.{marked, count_marks, Clean, holds, MarksOf, Eights, marked_in, given_row};

mod columns;

pub use columns::Columns;
use memory::DISPLAY_WIDTH;
use rows::choose;
use std::array;

// Which columns of a line are marked; nothing is marked past them.
#[derive(Clone, Copy)]
pub struct Marks {
    pub words: [u64; 4],
    pub ghost clean: { Clean words },
}

// A word with its n lowest marks set, or all of them.
fn low_marks(n: usize) -> u64
    ensures { result ≡ 2 ^ min 64 n - 1 }
{
    if n < 64 { (1u64 << n) - 1 } else { u64::MAX }
}

// The marks of columns in one word, whose 64 columns start at first.
fn marks_in(columns: Columns, first: usize) -> u64
    ensures { result ≡ 2 ^ min 64 (columns.right - first) - 2 ^ min 64 (columns.left - first) }
{
    low_marks(columns.right.saturating_sub(first)) - low_marks(columns.left.saturating_sub(first))
}

// How many marks a word has.
fn ones_of(word: u64) -> u32
    ensures { (result ≡ ones word) × (result ≤ 64) }
{
    word.count_ones()
}

impl Marks {
    // The marks of columns, a word at a time: a column at a time would be far slower.
    pub fn of(columns: Columns) -> Marks
        ensures { MarksOf (holds columns) result.words }
    {
        Marks {
            words: array::from_fn(|i| marks_in(columns, 64 * i)),
        }
    }

    // The marks that aren't among the others.
    pub fn without(self, others: [u64; 4]) -> Marks
        ensures { MarksOf (λ k. marked self.words k && not (marked others k)) result.words }
    {
        Marks {
            words: array::from_fn(|i| self.words[i] & !others[i]),
        }
    }

    // The marks that are among these or the others.
    pub fn or(self, others: Marks) -> Marks
        ensures { MarksOf (λ k. marked self.words k || marked others.words k) result.words }
    {
        Marks {
            words: array::from_fn(|i| self.words[i] | others.words[i]),
        }
    }

    // How many of the 240 columns are marked.
    pub fn count(self) -> u32
        ensures { result ≡ count_marks self.words }
    {
        ones_of(self.words[0])
            + ones_of(self.words[1])
            + ones_of(self.words[2])
            + ones_of(self.words[3])
    }
}

// The eight columns from i on, each given to the other row where its mark is set. The other row is read before the first store, for
// the compiler doesn't know that the two rows are apart: so the eight columns run at once.
fn paint_eight(row: &mut [u16; DISPLAY_WIDTH], other: &[u16; DISPLAY_WIDTH], marks: u16, i: usize)
    requires { i + 8 ≤ 240 }
    ensures { row.new ≡ given_row (marked_in marks i (i + 8)) other.now row.old }
{
    let words: [u16; 8] = array::from_fn(|j| other[i + j]);
    let mut left = marks;
    for j in 0..8 {
        row[i + j] = choose(left % 2 == 1, words[j], row[i + j]);
        left /= 2;
    }
}

// The columns of one word, from first on and before end, each given to the other row where its mark is set.
fn paint_word(
    row: &mut [u16; DISPLAY_WIDTH],
    marks: u64,
    other: &[u16; DISPLAY_WIDTH],
    first: usize,
    end: usize,
)
    requires { Eights first end }
    ensures { row.new ≡ given_row (marked_in marks first end) other.now row.old }
{
    if marks == 0 {
        return;
    }
    let mut left = marks;
    for j in 0..(end - first) / 8 {
        paint_eight(row, other, (left % 0x100) as u16, first + 8 * j);
        left /= 0x100;
    }
}

// The columns that are marked, given to the other row.
pub fn paint(row: &mut [u16; DISPLAY_WIDTH], marks: [u64; 4], other: &[u16; DISPLAY_WIDTH])
    ensures { row.new ≡ given_row (marked marks) other.now row.old }
{
    for i in 0..4 {
        let end = DISPLAY_WIDTH.min(64 * i + 64);
        paint_word(row, marks[i], other, 64 * i, end);
    }
}
