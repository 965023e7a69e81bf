// Kinds of layers (gpu/layer.rs).
ghost use Rattle.std.specs.Prelude.{◌≡◌, ◌<◌};
ghost use Rattle.regs_blend.specs.Layers.{background_layer, layer_bit};

#[derive(Clone, Copy)]
pub enum RenderLayerKind {
    Backdrop,
    Background3,
    Background2,
    Background1,
    Background0,
    Objects,
}

impl RenderLayerKind {
    // The layer of a background.
    #[tactic(auto, unfolding(crate::specs::Layers::background_layer))]
    pub fn background(bg: usize) -> RenderLayerKind
        requires { bg < 4 }
        ensures { result ≡ background_layer bg }
    {
        match bg {
            0 => RenderLayerKind::Background0,
            1 => RenderLayerKind::Background1,
            2 => RenderLayerKind::Background2,
            _ => RenderLayerKind::Background3,
        }
    }

    // The layer's place among the targets of a blend.
    pub fn target_bit(self) -> u16
        ensures { (result ≡ layer_bit self) × (result < 6) }
    {
        match self {
            RenderLayerKind::Background0 => 0,
            RenderLayerKind::Background1 => 1,
            RenderLayerKind::Background2 => 2,
            RenderLayerKind::Background3 => 3,
            RenderLayerKind::Objects => 4,
            RenderLayerKind::Backdrop => 5,
        }
    }
}
