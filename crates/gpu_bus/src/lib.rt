// Reads and stores of pages 5, 6 and 7, as the bus does them (gpu/mod.rs, `impl BusIO for Gpu`).

#![tactic(auto)]

ghost use Rattle.std.specs.Prelude.{◌≡◌, ◌+◌, ◌<◌, [], ◌∷◌, length};
ghost use Rattle.refusals.specs.Refusal.{outcome_number};
ghost use Rattle.rows.specs.Bytes.{put_from};
ghost use Rattle.regs.specs.Registers.{dispcnt};
ghost use Rattle.regs.specs.Display.{mode};
ghost use Rattle.gpu_pages.specs.declared.Page.TheVariants.{Vram};
ghost use Rattle.gpu_bus.specs.Memories.{memories_of, bus_lengths};
ghost use Rattle.gpu_bus.specs.Read.{read_byte, Reads};
ghost use Rattle.gpu_bus.specs.Store.{Store8, Store16, two_bytes, takes_byte, Stores};

use gpu_pages::{Page, even, page_of, small_offset, video_offset};
use memory::{OAM_SIZE, PALETTE_RAM_SIZE, Registers, VIDEO_RAM_SIZE};
use obj_sprites::obj_tiles_start;
use refusals::Refusal;
use regs::iodev::read_dispcnt;

// What a byte read hands out: 0 and the byte, or the number of the refusal and 0.
#[repr(C)]
#[derive(Clone, Copy)]
pub struct Byte {
    pub number: u32,
    pub value: u32,
}

impl From<Result<u8, Refusal>> for Byte {
    ghost from_gives = { λ read byte. byte ≡ read_byte read };

    #[tactic(auto, unfolding(crate::specs::Read::read_byte))]
    fn from(read: Result<u8, Refusal>) -> Byte {
        match read {
            Ok(byte) => Byte {
                number: 0,
                value: u32::from(byte),
            },
            Err(refusal) => Byte {
                number: u32::from(refusal),
                value: 0,
            },
        }
    }
}

// Whether each memory has its length.
#[tactic(auto, unfolding(crate::specs::Memories::bus_lengths))]
fn have_lengths(vram: &[u8], palette: &[u8], oam: &[u8]) -> bool
    ensures { result ≡ bus_lengths (memories_of vram.now palette.now oam.now) }
{
    (vram.len() == VIDEO_RAM_SIZE) & (palette.len() == PALETTE_RAM_SIZE) & (oam.len() == OAM_SIZE)
}

// The byte at an address, refused for a wrong length or another page.
#[tactic(auto, using(crate::proofs::Lengths::inside))]
pub fn read_8(addr: u32, vram: &[u8], palette: &[u8], oam: &[u8]) -> Result<u8, Refusal>
    ensures { Reads addr (memories_of vram.now palette.now oam.now) (read_byte result) }
{
    if !have_lengths(vram, palette, oam) {
        return Err(Refusal::BadLength);
    }
    match page_of(addr) {
        Page::Palram => Ok(palette[small_offset(addr)]),
        Page::Vram => Ok(vram[video_offset(addr)]),
        Page::Oam => Ok(oam[small_offset(addr)]),
        Page::Other => Err(Refusal::BadPage),
    }
}

// The halfword at `at` set, the low byte first.
fn put_half(bytes: &mut [u8], at: usize, value: u16)
    requires { at + 1 < length bytes.old }
    ensures { bytes.new ≡ put_from bytes.old at (two_bytes value) }
{
    [bytes[at], bytes[at + 1]] = value.to_le_bytes();
}

// A halfword stored, refused for a wrong length, another page, or an odd address of video memory.
#[tactic(auto, using(crate::proofs::Lengths::inside))]
pub fn write_16(
    addr: u32,
    value: u16,
    vram: &mut [u8],
    palette: &mut [u8],
    oam: &mut [u8],
) -> Result<(), Refusal>
    ensures { Stores (Store16 addr value)
        (memories_of vram.old palette.old oam.old)
        (outcome_number result)
        (memories_of vram.new palette.new oam.new) }
{
    if !have_lengths(vram, palette, oam) {
        return Err(Refusal::BadLength);
    }
    match page_of(addr) {
        Page::Palram => put_half(palette, even(small_offset(addr)), value),
        Page::Vram => {
            if addr % 2 == 1 {
                return Err(Refusal::OddAddress);
            }
            put_half(vram, video_offset(addr), value)
        }
        Page::Oam => put_half(oam, even(small_offset(addr)), value),
        Page::Other => return Err(Refusal::BadPage),
    }
    Ok(())
}

// The halfword that a stored byte becomes: both halves are the byte.
fn expand_value(value: u8) -> u16
    ensures { two_bytes result ≡ value ∷ value ∷ [] }
{
    u16::from_le_bytes([value, value])
}

// Whether video memory takes a byte at an offset: sprite tiles take none.
#[tactic(auto, using(crate::proofs::Answers::takes_before))]
fn takes_byte(registers: &Registers, ofs: usize) -> bool
    ensures { result ≡ takes_byte (mode (dispcnt registers.now)) Vram ofs }
{
    ofs < obj_tiles_start(read_dispcnt(registers).mode)
}

// A byte stored, refused for a wrong length or another page. OAM and sprite tiles take no byte.
#[tactic(auto, using(crate::proofs::Lengths::inside))]
pub fn write_8(
    addr: u32,
    value: u8,
    registers: &[u8],
    vram: &mut [u8],
    palette: &mut [u8],
    oam: &mut [u8],
) -> Result<(), Refusal>
    ensures { Stores (Store8 registers.now addr value)
        (memories_of vram.old palette.old oam.old)
        (outcome_number result)
        (memories_of vram.new palette.new oam.new) }
{
    let registers: &Registers = registers.as_array().ok_or(Refusal::BadLength)?;
    if !have_lengths(vram, palette, oam) {
        return Err(Refusal::BadLength);
    }
    match page_of(addr) {
        Page::Palram => put_half(palette, even(small_offset(addr)), expand_value(value)),
        Page::Vram => {
            let ofs = video_offset(addr);
            if takes_byte(registers, ofs) {
                put_half(vram, even(ofs), expand_value(value));
            }
        }
        Page::Oam => {}
        Page::Other => return Err(Refusal::BadPage),
    }
    Ok(())
}
