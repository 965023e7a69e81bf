// Where an address of pages 5, 6 and 7 falls (gpu/mod.rs, `impl BusIO for Gpu`).

#![tactic(auto)]

ghost use Rattle.std.specs.Prelude.{◌≡◌, ◌<◌};
ghost use Rattle.gpu_pages.specs.Places.{page_of, small_offset, video_offset, even};

// The memory that an address reaches, by its page.
#[derive(Clone, Copy)]
pub enum Page {
    Palram,
    Vram,
    Oam,
    Other,
}

// The page of an address, its topmost byte.
#[tactic(auto, unfolding(crate::specs::Places::page_of))]
pub fn page_of(addr: u32) -> Page
    ensures { result ≡ page_of addr }
{
    match addr / 0x100_0000 {
        5 => Page::Palram,
        6 => Page::Vram,
        7 => Page::Oam,
        _ => Page::Other,
    }
}

// The offset of an address in the palette or in OAM, which repeat.
pub fn small_offset(addr: u32) -> usize
    ensures { (result ≡ small_offset addr) × (result < 0x400) }
{
    (addr % 0x400) as usize
}

// The offset of an address in video memory, whose last 32 KiB are those before them once more.
#[tactic(auto, unfolding(crate::specs::Places::video_offset))]
pub fn video_offset(addr: u32) -> usize
    ensures { (result ≡ video_offset addr) × (result < 0x18000) }
{
    let ofs = (addr % 0x2_0000) as usize;
    if ofs >= 0x1_8000 { ofs - 0x8000 } else { ofs }
}

// Where the halfword of an offset starts: bit 0 is cleared.
pub fn even(offset: usize) -> usize
    ensures { result ≡ even offset }
{
    offset - offset % 2
}
