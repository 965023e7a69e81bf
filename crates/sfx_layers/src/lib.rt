// The layers of a line's columns: the top and the bottom one (gpu/layer.rs), and what regions permit (gpu/sfx.rs).

#![tactic(auto)]

mod layer;
mod mode;
mod region;

pub use layer::{
    FIRST_TARGET, LayerPair, LineLayers, MODE_ALPHA, MODE_WHITE, SECOND_TARGET, SEMI_OBJECT,
    column_pair, line_layers, mode_numbered, object_tag,
};
pub use mode::EffectMode;
pub use region::{EFFECTS, EFFECTS_PART, is_permitted, line_regions};
