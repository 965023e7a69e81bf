// The control's effect, as such or by its number.
ghost use Rattle.std.specs.Prelude.{◌≡◌};
ghost use Rattle.regs_blend.specs.declared.BlendMode.{BlendMode as Effect};
ghost use Rattle.sfx_layers.specs.Code.{mode_numbered};

use crate::layer::mode_numbered;
use regs_blend::BlendMode;

pub trait EffectMode: Copy {
    ghost mode: { Self → Effect };

    fn mode(self) -> BlendMode
        ensures { result ≡ mode self };
}

impl EffectMode for BlendMode {
    ghost mode = { λ m. m };

    fn mode(self) -> BlendMode {
        self
    }
}

impl EffectMode for u16 {
    ghost mode = { mode_numbered };

    fn mode(self) -> BlendMode {
        mode_numbered(self)
    }
}
