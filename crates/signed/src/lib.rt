// Signed numbers as unsigned ones, larger by a fixed bias (beside no file of the Rust, which computes in i32).

#![tactic(auto)]

ghost use Rattle.std.specs.Prelude.{◌≡◌, true, ◌<◌, ◌^◌};
ghost use Rattle.std.proofs.Math.IntN.{sub_ℕ};
ghost use Rattle.signed.specs.Signed.{signed16, signed32, word32, in_range};

// What a lifted reference number is larger by, 2^28.
pub const REFERENCE_BIAS: u32 = 0x1000_0000;

// What a lifted halfword is larger by, 2^15.
pub const HALF_BIAS: u32 = 0x8000;

// Reference numbers run from LOWEST to LIMIT - 1.
const LOWEST: i32 = -0x1000_0000;

const LIMIT: i32 = 0x1000_0000;

// Whether a draw or a step takes z as a reference number.
pub fn in_range(z: i32) -> bool
    ensures { result ≡ in_range z }
{
    (LOWEST..LIMIT).contains(&z)
}

// The reference number z plus 2^28.
pub fn lift_i32(z: i32) -> u32
    requires { in_range z ≡ true }
    ensures { (z ≡ sub_ℕ result (2 ^ 28)) × (result < 2 ^ 29) }
{
    (z - LOWEST) as u32
}

// The signed number of a halfword, plus 2^15.
pub fn lift_half(h: u16) -> u32
    ensures { (signed16 h ≡ sub_ℕ result (2 ^ 15)) × (result < 2 ^ 16) }
{
    (u32::from(h) + HALF_BIAS) % 0x1_0000
}

// The word of the reference number that is r less 2^28.
pub fn drop_word(r: u32) -> u32
    requires { r < 2 ^ 29 }
    ensures { (signed32 result ≡ sub_ℕ r (2 ^ 28)) × (result ≡ word32 (sub_ℕ r (2 ^ 28))) }
{
    r.wrapping_sub(REFERENCE_BIAS)
}
