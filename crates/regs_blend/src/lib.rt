// Blending: its registers decoded and read (gpu/regs.rs, iodev.rs), and the kinds of layers.

#![tactic(auto)]

ghost use Rattle.std.specs.Prelude.{◌≡◌};
ghost use Rattle.bits.specs.Bits.{bits};
ghost use Rattle.regs.specs.Registers.{bldcnt, bldalpha, bldy};
ghost use Rattle.regs_blend.specs.Blend.{BlendControlOf, BlendAlphaOf, blend_mode_of};
ghost use Rattle.regs_blend.specs.Layers.{targets};

mod layer;

pub use layer::RenderLayerKind;
use memory::{Registers, read_16};
use regs::iodev::{BLDALPHA, BLDCNT, BLDY};

// Layers, as six bits: backgrounds 0 to 3, objects, backdrop.
#[derive(Clone, Copy)]
pub struct BlendFlags(pub u16);

impl From<u16> for BlendFlags {
    ghost from_gives = { λ value flags. flags.0 ≡ bits 5 0 value };

    fn from(value: u16) -> BlendFlags {
        BlendFlags(value % 0x40)
    }
}

impl BlendFlags {
    // Whether the layer is one of these.
    pub fn contains_render_layer(self, kind: RenderLayerKind) -> bool
        ensures { result ≡ targets self.0 kind }
    {
        (self.0 >> kind.target_bit()) % 2 == 1
    }
}

#[derive(Clone, Copy, PartialEq, Eq)]
pub enum BlendMode {
    BldNone,
    BldAlpha,
    BldWhite,
    BldBlack,
}

// By the two low bits.
impl From<u16> for BlendMode {
    ghost from_gives = { λ value mode. mode ≡ blend_mode_of (bits 1 0 value) };

    #[tactic(auto, unfolding(crate::specs::Blend::blend_mode_of))]
    fn from(value: u16) -> BlendMode {
        match value % 4 {
            0 => BlendMode::BldNone,
            1 => BlendMode::BldAlpha,
            2 => BlendMode::BldWhite,
            _ => BlendMode::BldBlack,
        }
    }
}

#[derive(Clone, Copy)]
pub struct BlendControl {
    pub target1: BlendFlags,
    pub target2: BlendFlags,
    pub mode: BlendMode,
}

impl From<u16> for BlendControl {
    ghost from_gives = { BlendControlOf };

    fn from(value: u16) -> BlendControl {
        BlendControl {
            target1: BlendFlags::from(value),
            mode: BlendMode::from(value / 0x40),
            target2: BlendFlags::from(value / 0x100),
        }
    }
}

#[derive(Clone, Copy)]
pub struct BlendAlpha {
    pub eva: u16,
    pub evb: u16,
}

impl From<u16> for BlendAlpha {
    ghost from_gives = { BlendAlphaOf };

    fn from(value: u16) -> BlendAlpha {
        BlendAlpha {
            eva: value % 32,
            evb: value / 0x100 % 32,
        }
    }
}

pub fn read_bldcnt(registers: &Registers) -> BlendControl
    ensures { BlendControlOf (bldcnt registers.now) result }
{
    BlendControl::from(read_16(registers, BLDCNT))
}

pub fn read_bldalpha(registers: &Registers) -> BlendAlpha
    ensures { BlendAlphaOf (bldalpha registers.now) result }
{
    BlendAlpha::from(read_16(registers, BLDALPHA))
}

// EVY, the low five bits.
pub fn read_bldy(registers: &Registers) -> u16
    ensures { result ≡ bldy registers.now }
{
    read_16(registers, BLDY) % 32
}
