// A draw's input judged (beside no file of the Rust, whose memory has its lengths).

#![tactic(auto)]

ghost use Rattle.std.specs.Prelude.{◌≡◌};
ghost use Rattle.memory.specs.Memory.{memory_from};
ghost use Rattle.gpu_judge.specs.Judge.{call_of};
ghost use Rattle.gpu_judge.specs.Code.{lent_memory, request, judged};

use bg_points::References;
use memory::{DISPLAY_HEIGHT, Memory};
use obj_entries::{Entries, shaped_row};
use refusals::Refusal;
use regs::Reading;
use regs::iodev::read_dispcnt;
use regs_blend::read_bldy;

// Lines of the screen, as a line is asked for.
const LINES: u32 = DISPLAY_HEIGHT as u32;

// What an accepted draw shows: the line of forced blank, or one of backgrounds and sprites.
#[derive(Clone, Copy, Debug, PartialEq, Eq)]
pub enum Picture {
    Blank,
    Drawn,
}

// The lent memory, if each buffer has its length.
fn lent_memory<'a>(
    vram: &'a [u8],
    palette: &'a [u8],
    oam: &'a [u8],
    registers: &'a [u8],
) -> Result<Memory<'a>, Refusal>
    ensures { result ≡ lent_memory (memory_from vram.now palette.now oam.now registers.now) }
{
    let vram = vram.as_array().ok_or(Refusal::BadLength)?;
    let palette = palette.as_array().ok_or(Refusal::BadLength)?;
    let oam = oam.as_array().ok_or(Refusal::BadLength)?;
    let registers = registers.as_array().ok_or(Refusal::BadLength)?;
    Ok(Memory {
        vram,
        palette,
        oam,
        registers,
    })
}

// What a draw is asked for, by a reading that there is and memory that has its lengths.
#[derive(Drop)]
pub struct Request<'a> {
    pub reading: Reading,
    pub line: u32,
    pub references: References,
    pub memory: Memory<'a>,
}

impl<'a> Request<'a> {
    // The first tests of a draw: of the reading, and of the memory's lengths.
    pub fn new(
        reading: u32,
        line: u32,
        references: References,
        vram: &'a [u8],
        palette: &'a [u8],
        oam: &'a [u8],
        registers: &'a [u8],
    ) -> Result<Request<'a>, Refusal>
        ensures { result ≡ request (call_of reading line references vram.now palette.now oam.now registers.now) }
    {
        let reading = Reading::try_from(reading)?;
        let memory = lent_memory(vram, palette, oam, registers)?;
        Ok(Request {
            reading,
            line,
            references,
            memory,
        })
    }

    // The tests that follow those of the lengths, in the order of the numbers.
    pub fn judge(&self, entries: &Entries) -> Result<Picture, Refusal>
        ensures { result ≡ judged self.now entries.now }
    {
        if self.line >= LINES {
            return Err(Refusal::BadLine);
        }
        let dispcnt = read_dispcnt(self.memory.registers);
        if dispcnt.force_blank {
            return Ok(Picture::Blank);
        }
        if dispcnt.mode > 5 {
            return Err(Refusal::BadMode);
        }
        if self.reading.counted(read_bldy(self.memory.registers)) > 16 {
            return Err(Refusal::BadBldy);
        }
        if !self.references.in_ranges() {
            return Err(Refusal::BadReference);
        }
        if !shaped_row(entries) {
            return Err(Refusal::BadEntry);
        }
        Ok(Picture::Drawn)
    }
}
