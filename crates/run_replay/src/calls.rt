// The calls that draw, reset, step and explain, each compared with the oracle's answer.
ghost use Rattle.std.specs.Prelude.{◌≡◌};

use crate::compare::{Answer, Fault, compare, compare_fields};
use crate::list::{
    Buffer, Call, Head, MEMORY_ROOM, REFERENCES_ROOM, ROW_ROOM, Word, lent, lent_mut, read_whole,
    split,
};
use ashlarkin::{ashlarkin_draw, ashlarkin_explain, ashlarkin_reset, ashlarkin_step};
use explain::Reason;
use std::io::Read;
use std::{array, io};

// A reason's fields behind its number, and how many bytes the list has of them.
const FIELDS: usize = 10;

const FIELDS_SIZE: usize = 40;

// What a draw is lent to read.
#[derive(Clone, Copy)]
struct Screen<'a> {
    vram: &'a [u8],
    palette: &'a [u8],
    oam: &'a [u8],
    registers: &'a [u8],
}

impl<'a> Screen<'a> {
    // As much as a head says.
    fn new(head: &Head, images: &'a [u8], memory: &'a [u8]) -> Screen<'a> {
        let (_, image) = split(images, head.size(Word::Start));
        let (palette, behind) = split(memory, head.size(Word::Palette));
        let (oam, behind) = split(behind, head.size(Word::Oam));
        Screen {
            vram: lent(image, head.size(Word::Vram)),
            palette,
            oam,
            registers: lent(behind, head.size(Word::Registers)),
        }
    }
}

// A row's entries and output.
#[derive(Clone, Copy)]
struct Row {
    entries: [u8; ROW_ROOM],
    output: [u8; ROW_ROOM],
}

impl Row {
    fn draw(&mut self, head: &Head, screen: Screen<'_>) -> u32 {
        ashlarkin_draw(
            head.word(Word::Reading),
            head.word(Word::Line),
            head.signed(Word::X2),
            head.signed(Word::Y2),
            head.signed(Word::X3),
            head.signed(Word::Y3),
            screen.vram,
            screen.palette,
            screen.oam,
            screen.registers,
            lent_mut(&mut self.entries, head.size(Word::Entries)),
            lent_mut(&mut self.output, head.size(Word::Output)),
        )
    }

    fn reset(&mut self, head: &Head) -> u32 {
        ashlarkin_reset(lent_mut(&mut self.entries, head.size(Word::Entries)))
    }

    fn read_entries(
        &mut self,
        input: &mut impl Read,
        head: &Head,
        buffer: Buffer,
    ) -> io::Result<Option<()>> {
        let size = head.size(Word::Entries);
        head.read_buffer(input, buffer, &mut self.entries, size)
    }

    // What the oracle left, where it follows.
    fn read_after(&mut self, input: &mut impl Read, head: &Head) -> io::Result<Option<()>> {
        let entries = self.read_entries(input, head, Buffer::EntriesAfter)?;
        let size = head.size(Word::Output);
        let output = head.read_buffer(input, Buffer::OutputAfter, &mut self.output, size)?;
        Ok(entries.and(output))
    }

    fn answer(&self, number: u32) -> Answer<'_>
        ensures { (result.number ≡ number) × (result.entries.now ≡ self.now.entries) × (result.output.now ≡ self.now.output) }
    {
        Answer {
            number,
            entries: &self.entries,
            output: &self.output,
        }
    }
}

// What draws, resets and reasons are called with; each leaves it for those behind.
#[derive(Drop)]
pub(crate) struct Draws {
    pub(crate) memory: [u8; MEMORY_ROOM],
    row: Row,
}

impl Draws {
    pub(crate) fn new() -> Draws {
        let row = Row {
            entries: [0; ROW_ROOM],
            output: [0; ROW_ROOM],
        };
        Draws {
            memory: [0; MEMORY_ROOM],
            row,
        }
    }

    // Memory and entries before the call, where they follow.
    fn read_before(&mut self, input: &mut impl Read, head: &Head) -> io::Result<Option<()>> {
        let size = head.size(Word::Palette) + head.size(Word::Oam) + head.size(Word::Registers);
        let memory = head.read_buffer(input, Buffer::Memory, &mut self.memory, size)?;
        let entries = self.row.read_entries(input, head, Buffer::Entries)?;
        Ok(memory.and(entries))
    }

    // A draw or a reset.
    pub(crate) fn replay_row(
        &mut self,
        input: &mut impl Read,
        head: &Head,
        images: &[u8],
    ) -> Result<(), Fault> {
        let before = self.read_before(input, head)?;
        let mut oracle = self.row;
        let after = oracle.read_after(input, head)?;
        before.and(after).ok_or(Fault::Cut)?;
        let number = match head.call() {
            Call::Draw => self.row.draw(head, Screen::new(head, images, &self.memory)),
            _ => self.row.reset(head),
        };
        let ours = self.row.answer(number);
        compare(ours, oracle.answer(head.word(Word::Number)))?;
        Ok(())
    }

    fn reason(&self, head: &Head, images: &[u8]) -> Reason {
        let screen = Screen::new(head, images, &self.memory);
        ashlarkin_explain(
            head.word(Word::Reading),
            head.word(Word::Line),
            head.signed(Word::X2),
            head.signed(Word::Y2),
            head.signed(Word::X3),
            head.signed(Word::Y3),
            screen.vram,
            screen.palette,
            screen.oam,
            screen.registers,
            lent(&self.row.entries, head.size(Word::Entries)),
            head.word(Word::COLUMN),
        )
    }

    // The reason of a column.
    pub(crate) fn replay_reason(
        &mut self,
        input: &mut impl Read,
        head: &Head,
        images: &[u8],
    ) -> Result<(), Fault> {
        let before = self.read_before(input, head)?;
        let mut bytes = [0; FIELDS_SIZE];
        let after = read_whole(input, &mut bytes)?;
        before.and(after).ok_or(Fault::Cut)?;
        let oracle: [u32; FIELDS] = array::from_fn(|k| rows::word_at(&bytes, k));
        let given = self.reason(head, images);
        compare_fields(
            given.number,
            &fields(given),
            head.word(Word::Number),
            &oracle,
        )?;
        Ok(())
    }
}

// A reason's fields, as the list has them.
fn fields(reason: Reason) -> [u32; FIELDS] {
    [
        reason.blank,
        reason.region,
        reason.top,
        reason.bottom,
        reason.effect,
        reason.top_color.into(),
        reason.bottom_color.into(),
        reason.first_weight.into(),
        reason.second_weight.into(),
        reason.pixel,
    ]
}

pub(crate) fn replay_step(input: &mut impl Read, head: &Head) -> Result<(), Fault> {
    let mut references = [0; REFERENCES_ROOM];
    let mut oracle = [0; REFERENCES_ROOM];
    let before = read_whole(input, &mut references)?;
    let after = read_whole(input, &mut oracle)?;
    before.and(after).ok_or(Fault::Cut)?;
    let number = ashlarkin_step(
        head.signed_half(Word::X2),
        head.signed_half(Word::Y2),
        head.signed_half(Word::X3),
        head.signed_half(Word::Y3),
        lent_mut(&mut references, head.size(Word::Entries)),
    );
    let ours = Answer {
        number,
        entries: &references,
        output: b"",
    };
    let oracles = Answer {
        number: head.word(Word::Number),
        entries: &oracle,
        output: b"",
    };
    compare(ours, oracles)?;
    Ok(())
}
