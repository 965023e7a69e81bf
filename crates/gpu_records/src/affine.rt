// The line-end step on records (gpu/mod.rs, `BgAffine` and `handle_hblank_end`).
ghost use Rattle.std.specs.Prelude.{◌≡◌};
ghost use Rattle.refusals.specs.Refusal.{outcome_number};
ghost use Rattle.gpu_records.specs.Step.{steps_of, references_of, moved_to, StepsRecords};

use bg_points::References;
use gpu_step::{Steps, step_references};
use refusals::Refusal;

// A background's numbers for rotation and scaling: the matrix, the reference point as it was written, and as it is now.
#[repr(C)]
#[derive(Clone, Copy)]
pub struct BgAffine {
    pub pa: i16,
    pub pb: i16,
    pub pc: i16,
    pub pd: i16,
    pub x: i32,
    pub y: i32,
    pub internal_x: i32,
    pub internal_y: i32,
}

// A background with its point at x and y.
#[tactic(auto, unfolding(crate::specs::Step::moved_to))]
fn moved_to(bg: BgAffine, x: i32, y: i32) -> BgAffine
    ensures { result ≡ moved_to bg x y }
{
    BgAffine {
        internal_x: x,
        internal_y: y,
        ..bg
    }
}

// pb and pd of both backgrounds.
fn steps_of(bg2: BgAffine, bg3: BgAffine) -> Steps
    ensures { result ≡ steps_of bg2 bg3 }
{
    Steps {
        pb2: bg2.pb,
        pd2: bg2.pd,
        pb3: bg3.pb,
        pd3: bg3.pd,
    }
}

// The four reference numbers that are judged and stepped.
fn references_of(bg2: BgAffine, bg3: BgAffine) -> References
    ensures { result ≡ references_of bg2 bg3 }
{
    References {
        x2: bg2.internal_x,
        y2: bg2.internal_y,
        x3: bg3.internal_x,
        y3: bg3.internal_y,
    }
}

// Both backgrounds stepped, or neither.
pub fn step_pair(bg2: &mut BgAffine, bg3: &mut BgAffine) -> Result<(), Refusal>
    ensures { StepsRecords bg2.old bg3.old (outcome_number result) bg2.new bg3.new }
{
    let to = step_references(steps_of(*bg2, *bg3), references_of(*bg2, *bg3)).ok_or(
        Refusal::BadReference,
    )?;
    *bg2 = moved_to(*bg2, to.x2, to.y2);
    *bg3 = moved_to(*bg3, to.x3, to.y3);
    Ok(())
}
