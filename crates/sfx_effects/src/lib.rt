// The effect on a column's layers (gpu/sfx.rs): the weights of a line's blends, and one blend for every effect.

#![tactic(auto)]

ghost use Rattle.std.specs.Prelude.{◌≡◌, ◌≤◌};
ghost use Rattle.regs.specs.Registers.{bldy};
ghost use Rattle.regs.specs.Reading.{counted};
ghost use Rattle.sfx_effects.specs.Code.{WeightsOf, is_blended, is_faded};
ghost use Rattle.sfx_effects.specs.Code.{fade_color, fade_weight, pair_color};

mod weights;

use memory::Registers;
use regs::Reading;
use regs_blend::{BlendMode, read_bldalpha, read_bldy};
use rgb15::Rgb15;
use rows::choose;
use sfx_layers::{EffectMode, FIRST_TARGET, LayerPair, SECOND_TARGET, SEMI_OBJECT};
pub use weights::Weights;

// A line's weights, as the reading counts them.
pub fn line_weights(registers: &Registers, reading: Reading) -> Weights
    requires { counted reading (bldy registers.now) ≤ 16 }
    ensures { WeightsOf reading registers.now result }
{
    let alpha = read_bldalpha(registers);
    Weights {
        eva: reading.counted(alpha.eva),
        evb: reading.counted(alpha.evb),
        evy: reading.counted(read_bldy(registers)),
    }
}

// Whether two layers are blended: the bottom must be a second target, and the top a semi-transparent object, or a first
// target where effects are permitted and the control's is the blend.
fn is_blended(mode: BlendMode, permitted: bool, layers: LayerPair) -> bool
    ensures { result ≡ is_blended mode permitted layers }
{
    let second = layers.bottom_tag / SECOND_TARGET % 2 == 1;
    let semi = layers.top_tag / SEMI_OBJECT % 2 == 1;
    let first = layers.top_tag / FIRST_TARGET % 2 == 1;
    second & (semi | (permitted & first & (mode == BlendMode::BldAlpha)))
}

// Whether a top that isn't blended is made white or black.
fn is_faded(mode: BlendMode, permitted: bool, tag: u16) -> bool
    ensures { result ≡ is_faded mode permitted tag }
{
    let first = tag / FIRST_TARGET % 2 == 1;
    permitted & first & ((mode == BlendMode::BldWhite) | (mode == BlendMode::BldBlack))
}

// The colour that such a top is blended with.
fn fade_color(mode: BlendMode) -> Rgb15
    ensures { result.0 ≡ fade_color mode }
{
    choose(mode == BlendMode::BldWhite, Rgb15::WHITE, Rgb15::BLACK)
}

// The weight of that colour; with 0 the top shows as it is.
fn fade_weight(weights: Weights, mode: BlendMode, permitted: bool, tag: u16) -> u16
    ensures { (result ≡ fade_weight weights mode permitted tag) × (result ≤ 16) }
{
    choose(is_faded(mode, permitted, tag), weights.evy, 0)
}

// The Rust's effects, do_alpha, do_brighten and do_darken, and none: one blend for all. Where no layers of a line can be blended
// the caller says so, and the compiler drops the bottom.
pub fn do_effect<const BLENDS: bool, M: EffectMode>(
    weights: Weights,
    mode: M,
    permitted: bool,
    layers: LayerPair,
) -> Rgb15
    ensures { result.0 ≡ pair_color BLENDS weights (M.mode mode) permitted layers }
{
    let mode = mode.mode();
    let blended = BLENDS & is_blended(mode, permitted, layers);
    let evy = fade_weight(weights, mode, permitted, layers.top_tag);
    let other = choose(blended, layers.bottom, fade_color(mode).0);
    let my_weight = choose(blended, weights.eva, 16 - evy);
    let other_weight = choose(blended, weights.evb, evy);
    Rgb15(layers.top).blend_with(Rgb15(other), my_weight, other_weight)
}
