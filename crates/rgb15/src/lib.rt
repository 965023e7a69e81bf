// The 15-bit colour (gpu/rgb15.rs, and `impl Rgb15` of gpu/sfx.rs).

#![tactic(auto)]

ghost use Rattle.std.specs.Prelude.{◌≡◌, ◌≤◌};
ghost use Rattle.rgb15.specs.Colour.{red, green, blue, to_rgb24, from_rgb, is_transparent, blend_channel, blend_with};

// A colour as memory holds it: red in bits 4-0, green in 9-5, blue in 14-10.
#[derive(Clone, Copy, PartialEq, Eq)]
pub struct Rgb15(pub u16);

// The channels, 0 to 31, which the Rust's `bitfield!` makes.
impl Rgb15 {
    pub fn r(self) -> u16
        ensures { result ≡ red self.0 }
    {
        self.0 % 32
    }

    pub fn g(self) -> u16
        ensures { result ≡ green self.0 }
    {
        self.0 / 0x20 % 32
    }

    pub fn b(self) -> u16
        ensures { result ≡ blue self.0 }
    {
        self.0 / 0x400 % 32
    }
}

impl Rgb15 {
    pub const BLACK: Rgb15 = Rgb15(0);

    pub const WHITE: Rgb15 = Rgb15(0x7fff);

    pub const TRANSPARENT: Rgb15 = Rgb15(0x8000);

    // The 24-bit form that a draw writes.
    pub fn to_rgb24(self) -> u32
        ensures { result ≡ to_rgb24 self.0 }
    {
        u32::from(self.r()) * 0x80000 + u32::from(self.g()) * 0x800 + u32::from(self.b()) * 0x8
    }

    // The colour of three channels, of each the low five bits.
    pub fn from_rgb(r: u16, g: u16, b: u16) -> Rgb15
        ensures { result.0 ≡ from_rgb r g b }
    {
        Rgb15(r % 32 + g % 32 * 0x20 + b % 32 * 0x400)
    }

    // Whether the word is exactly the transparent one.
    pub fn is_transparent(self) -> bool
        ensures { result ≡ is_transparent self.0 }
    {
        self == Rgb15::TRANSPARENT
    }
}

// One channel of a blend, at most 31.
#[tactic(auto, unfolding(crate::specs::Colour::blend_channel))]
fn blend_channel(a: u16, b: u16, wa: u16, wb: u16) -> u16
    requires { (a ≤ 31) × (b ≤ 31) × (wa ≤ 31) × (wb ≤ 31) }
    ensures { result ≡ blend_channel a b wa wb }
{
    ((a * wa + b * wb) / 16).min(31)
}

impl Rgb15 {
    // The two colours blended channel by channel, each by its weight in sixteenths.
    pub fn blend_with(self, other: Rgb15, my_weight: u16, other_weight: u16) -> Rgb15
        requires { (my_weight ≤ 31) × (other_weight ≤ 31) }
        ensures { result.0 ≡ blend_with self.0 other.0 my_weight other_weight }
    {
        let r = blend_channel(self.r(), other.r(), my_weight, other_weight);
        let g = blend_channel(self.g(), other.g(), my_weight, other_weight);
        let b = blend_channel(self.b(), other.b(), my_weight, other_weight);
        Rgb15::from_rgb(r, g, b)
    }
}
