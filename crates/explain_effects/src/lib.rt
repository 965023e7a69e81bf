// The effect on one column's layers, by name, and what follows from it (gpu/sfx.rs, `finalize_pixel`).

#![tactic(auto)]

ghost use Rattle.std.specs.Prelude.{◌≡◌, ◌≤◌};
ghost use Rattle.rgb15.specs.Colour.{to_rgb24};
ghost use Rattle.regs.specs.Registers.{bldy};
ghost use Rattle.regs.specs.Reading.{counted};
ghost use Rattle.sfx_layers.specs.Layers.{is_object};
ghost use Rattle.sfx_effects.specs.Effects.{control_effect, effect};
ghost use Rattle.explain_effects.specs.Weights.{effect_number};
ghost use Rattle.explain_effects.specs.Code.{effect_of, pair_of, other_color, EffectWeightsOf, weighed_color};

use memory::Registers;
use regs::Reading;
use regs_blend::{BlendMode, RenderLayerKind, read_bldcnt};
use regs_window::WindowFlags;
use rgb15::Rgb15;
use sfx_effects::line_weights;

// What becomes of the top layer's colour.
#[derive(Clone, Copy)]
pub enum Effect {
    None,
    SpriteBlend,
    ControlBlend,
    White,
    Black,
}

// What an effect multiplies two colours by, in sixteenths.
#[derive(Clone, Copy)]
pub struct EffectWeights {
    pub first: u16,
    pub second: u16,
}

// The number of the effect in a reason.
impl From<Effect> for u32 {
    ghost from_gives = { λ effect number. number ≡ effect_number (effect_of effect) };

    fn from(effect: Effect) -> u32 {
        match effect {
            Effect::None => 0,
            Effect::SpriteBlend => 1,
            Effect::ControlBlend => 2,
            Effect::White => 3,
            Effect::Black => 4,
        }
    }
}

impl Effect {
    // The colour that the top is blended with; with no effect any serves, since its weight is 0.
    fn other(self, bottom: Rgb15) -> Rgb15
        ensures { result.0 ≡ other_color (effect_of self) bottom.0 }
    {
        match self {
            Effect::SpriteBlend | Effect::ControlBlend => bottom,
            Effect::White => Rgb15::WHITE,
            Effect::None | Effect::Black => Rgb15::BLACK,
        }
    }

    // The pixel of two colours, by the effect and its weights.
    pub fn pixel(self, weights: EffectWeights, top: Rgb15, bottom: Rgb15) -> u32
        requires { (weights.first ≤ 31) × (weights.second ≤ 31) }
        ensures { result ≡ to_rgb24 (weighed_color (effect_of self) weights top.0 bottom.0) }
    {
        let other = self.other(bottom);
        let color = top.blend_with(other, weights.first, weights.second);
        color.to_rgb24()
    }
}

fn is_object(kind: RenderLayerKind) -> bool
    ensures { result ≡ is_object kind }
{
    matches!(kind, RenderLayerKind::Objects)
}

// The control's effect, by whether the bottom is a second target: its blend needs that.
#[tactic(auto, unfolding(sfx_effects::specs::Effects::control_effect))]
fn control_effect(mode: BlendMode, second: bool) -> Effect
    ensures { effect_of result ≡ control_effect mode second }
{
    match mode {
        BlendMode::BldNone => Effect::None,
        BlendMode::BldAlpha => if second {
            Effect::ControlBlend
        } else {
            Effect::None
        },
        BlendMode::BldWhite => Effect::White,
        BlendMode::BldBlack => Effect::Black,
    }
}

// The effect on two layers, by what the region permits and whether the column's object is semi-transparent.
pub fn column_effect(
    registers: &Registers,
    flags: WindowFlags,
    semi: bool,
    top: RenderLayerKind,
    bottom: RenderLayerKind,
) -> Effect
    ensures { effect_of result ≡ effect registers.now flags.0 semi (pair_of top bottom) }
{
    let control = read_bldcnt(registers);
    let mode = control.mode;
    let second = control.target2.contains_render_layer(bottom);
    if is_object(top) & semi & second {
        return Effect::SpriteBlend;
    }
    if flags.sfx_enabled() & control.target1.contains_render_layer(top) {
        control_effect(mode, second)
    } else {
        Effect::None
    }
}

// The weights of an effect, as the reading counts them.
pub fn effect_weights(registers: &Registers, reading: Reading, effect: Effect) -> EffectWeights
    requires { counted reading (bldy registers.now) ≤ 16 }
    ensures { EffectWeightsOf reading registers.now (effect_of effect) result }
{
    let weights = line_weights(registers, reading);
    let blend = EffectWeights {
        first: weights.eva,
        second: weights.evb,
    };
    let fade = EffectWeights {
        first: 16 - weights.evy,
        second: weights.evy,
    };
    match effect {
        Effect::None => EffectWeights {
            first: 16,
            second: 0,
        },
        Effect::SpriteBlend | Effect::ControlBlend => blend,
        Effect::White | Effect::Black => fade,
    }
}
