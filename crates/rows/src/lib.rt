// Rows of four-byte words, and a choice for loops over columns. The laws of rows are in proofs/.

#![tactic(auto)]

ghost use Rattle.std.specs.Prelude.{◌≡◌, cond, ◌+◌, ◌*◌, ◌≤◌, length};
ghost use Rattle.rows.specs.Cells.{cell_at, put_cell};
ghost use Rattle.rows.specs.Words.{word_cells};

// Cell k of a row of words.
pub fn word_at(row: &[u8], k: usize) -> u32
    requires { 4 * k + 4 ≤ length row.now }
    ensures { result ≡ cell_at word_cells row.now k }
{
    let i = 4 * k;
    u32::from_le_bytes([row[i], row[i + 1], row[i + 2], row[i + 3]])
}

// Cell k of a row of words set to w.
pub fn put_word(row: &mut [u8], k: usize, w: u32)
    requires { 4 * k + 4 ≤ length row.old }
    ensures { row.new ≡ put_cell word_cells row.old k w }
{
    let i = 4 * k;
    [row[i], row[i + 1], row[i + 2], row[i + 3]] = w.to_le_bytes();
}

// The first where the test holds, else the second. In a loop over columns every choice is made by this function, of numbers
// that are there already: so the loop has no other branches, and runs on several columns at once.
pub fn choose<T: Copy>(test: bool, then: T, other: T) -> T
    ensures { result ≡ cond test then other }
{
    if test { then } else { other }
}
