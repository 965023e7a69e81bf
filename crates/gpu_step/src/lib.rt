// The step of the reference numbers at a line's end (gpu/mod.rs, `handle_hblank_end`).

#![tactic(auto)]

ghost use Rattle.std.specs.Prelude.{◌≡◌, true, ◌<◌, ◌+ℤ◌};
ghost use Rattle.signed.specs.Signed.{in_range};
ghost use Rattle.refusals.specs.Refusal.{outcome_number};
ghost use Rattle.bg_points.specs.References.{in_ranges};
ghost use Rattle.gpu_step.specs.Step.{reference_at, references_in, bytes_of, sums, stepped, StepsTo};

use bg_points::References;
use refusals::Refusal;
use rows::{put_word, word_at};
use std::array;

// The four numbers in bytes.
const REFERENCES_SIZE: usize = 16;

// pb and pd of both backgrounds, which a line adds to x and y.
#[derive(Clone, Copy)]
pub struct Steps {
    pub pb2: i16,
    pub pd2: i16,
    pub pb3: i16,
    pub pd3: i16,
}

// A reference number and what a line adds to it.
fn sum(reference: i32, by: i16) -> i32
    requires { in_range reference ≡ true }
    ensures { result ≡ reference +ℤ by }
{
    reference + i32::from(by)
}

// The four sums.
fn sums(steps: Steps, references: References) -> References
    requires { in_ranges references ≡ true }
    ensures { result ≡ sums steps references }
{
    let x2 = sum(references.x2, steps.pb2);
    let y2 = sum(references.y2, steps.pd2);
    let x3 = sum(references.x3, steps.pb3);
    let y3 = sum(references.y3, steps.pd3);
    References { x2, y2, x3, y3 }
}

// The step on numbers, for both backgrounds or not at all.
pub fn step_references(steps: Steps, references: References) -> Option<References>
    ensures { result ≡ stepped steps references }
{
    if !references.in_ranges() {
        return None;
    }
    let to = sums(steps, references);
    if to.in_ranges() { Some(to) } else { None }
}

// Number k of the lent four.
fn reference_at(references: &[u8; REFERENCES_SIZE], k: usize) -> i32
    requires { k < 4 }
    ensures { result ≡ reference_at references.now k }
{
    word_at(references, k).cast_signed()
}

// The lent four.
fn references_in(references: &[u8; REFERENCES_SIZE]) -> References
    ensures { result ≡ references_in references.now }
{
    let [x2, y2, x3, y3]: [i32; 4] = array::from_fn(|k| reference_at(references, k));
    References { x2, y2, x3, y3 }
}

// The lent four set to others.
fn put_references(references: &mut [u8; REFERENCES_SIZE], to: References)
    ensures { references.new ≡ bytes_of to }
{
    put_word(references, 0, to.x2.cast_unsigned());
    put_word(references, 1, to.y2.cast_unsigned());
    put_word(references, 2, to.x3.cast_unsigned());
    put_word(references, 3, to.y3.cast_unsigned());
}

// The step on lent bytes, little-endian, in the draw's order.
pub fn step(steps: Steps, references: &mut [u8]) -> Result<(), Refusal>
    ensures { StepsTo steps references.old (outcome_number result) references.new }
{
    let references: &mut [u8; REFERENCES_SIZE] = references
        .as_mut_array()
        .ok_or(Refusal::BadLength)?;
    let to = step_references(steps, references_in(references)).ok_or(Refusal::BadReference)?;
    put_references(references, to);
    Ok(())
}
