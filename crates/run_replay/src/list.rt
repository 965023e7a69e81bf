// Reading the list.
ghost use Rattle.std.specs.Prelude.{◌^◌, ◌<◌};

use std::io;
use std::io::{ErrorKind, Read};

// The five video memories.
pub(crate) const IMAGES_SIZE: usize = 655680;

// A head's 17 words.
const HEAD_SIZE: usize = 68;

// Room for buffers of twice their length, which a draw refuses; palette, OAM and registers share theirs.
pub(crate) const MEMORY_ROOM: usize = 4268;

// The same for what reads and stores are lent.
pub(crate) const PALETTE_ROOM: usize = 2048;

pub(crate) const OAM_ROOM: usize = 2048;

pub(crate) const REGISTERS_ROOM: usize = 172;

pub(crate) const ROW_ROOM: usize = 1920;

pub(crate) const REFERENCES_ROOM: usize = 32;

// The call of a record.
#[derive(Clone, Copy, PartialEq, Eq)]
pub(crate) enum Call {
    Draw,
    Step,
    Reset,
    Explain,
    Read8,
    Store8,
    Store16,
}

impl From<u32> for Call {
    fn from(word: u32) -> Call {
        match word {
            0 => Call::Draw,
            1 => Call::Step,
            2 => Call::Reset,
            3 => Call::Explain,
            4 => Call::Read8,
            5 => Call::Store8,
            _ => Call::Store16,
        }
    }
}

// A head's words, in order.
#[derive(Clone, Copy)]
pub(crate) enum Word {
    Call,
    Group,
    Number,
    Follow,
    Reading,
    Line,
    X2,
    Y2,
    X3,
    Y3,
    Start,
    Vram,
    Palette,
    Oam,
    Registers,
    Entries,
    Output,
}

impl Word {
    // Of a reason.
    pub(crate) const COLUMN: Word = Word::Output;

    // Of a read or a store.
    pub(crate) const ADDRESS: Word = Word::X2;

    pub(crate) const VALUE: Word = Word::Y2;

    pub(crate) const DISPCNT: Word = Word::X3;
}

// The buffers that can follow a head, each by what its bit is worth.
#[derive(Clone, Copy)]
pub(crate) enum Buffer {
    Memory = 1,
    Entries = 2,
    EntriesAfter = 4,
    OutputAfter = 8,
}

#[derive(Drop)]
pub(crate) struct Head([u8; HEAD_SIZE]);

impl Head {
    // The next head; none where the list ends before it does.
    pub(crate) fn read(input: &mut impl Read) -> io::Result<Option<Head>> {
        let mut bytes = [0; HEAD_SIZE];
        let whole = read_whole(input, &mut bytes)?;
        Ok(whole.map(|()| Head(bytes)))
    }

    pub(crate) fn word(&self, word: Word) -> u32 {
        rows::word_at(&self.0, word as usize)
    }

    pub(crate) fn call(&self) -> Call {
        Call::from(self.word(Word::Call))
    }

    // A word as a size.
    pub(crate) fn size(&self, word: Word) -> usize
        ensures { result < 2 ^ 32 }
    {
        self.word(word) as usize
    }

    // A word as a signed number.
    pub(crate) fn signed(&self, word: Word) -> i32 {
        self.word(word).cast_signed()
    }

    // The low byte of a word.
    pub(crate) fn byte(&self, word: Word) -> u8 {
        let [low, ..] = self.word(word).to_le_bytes();
        low
    }

    // The low half of a word.
    pub(crate) fn half(&self, word: Word) -> u16 {
        let [low, high, ..] = self.word(word).to_le_bytes();
        u16::from_le_bytes([low, high])
    }

    // The low half of a word as a signed number.
    pub(crate) fn signed_half(&self, word: Word) -> i16 {
        self.half(word).cast_signed()
    }

    // Fills the first bytes of the room, if the buffer follows; none where the list ends before, or where it has no room. What
    // follows in the record is read all the same, so that an input that fails there is told.
    pub(crate) fn read_buffer(
        &self,
        input: &mut impl Read,
        buffer: Buffer,
        room: &mut [u8],
        size: usize,
    ) -> io::Result<Option<()>> {
        if self.word(Word::Follow) & buffer as u32 == 0 {
            return Ok(Some(()));
        }
        match room.get_mut(..size) {
            Some(bytes) => read_whole(input, bytes),
            None => Ok(None),
        }
    }
}

// Fills the buffer; none where the list ends before.
pub(crate) fn read_whole(input: &mut impl Read, buffer: &mut [u8]) -> io::Result<Option<()>> {
    match input.read_exact(buffer) {
        Ok(()) => Ok(Some(())),
        Err(e) if e.kind() == ErrorKind::UnexpectedEof => Ok(None),
        Err(e) => Err(e),
    }
}

// The first bytes of a buffer, all where there are fewer, and those behind them.
pub(crate) fn split(buffer: &[u8], size: usize) -> (&[u8], &[u8]) {
    let size = size.min(buffer.len());
    buffer.split_at(size)
}

// The first bytes of a buffer; all where there are fewer.
pub(crate) fn lent(buffer: &[u8], size: usize) -> &[u8] {
    let size = size.min(buffer.len());
    &buffer[..size]
}

pub(crate) fn lent_mut(buffer: &mut [u8], size: usize) -> &mut [u8] {
    let size = size.min(buffer.len());
    &mut buffer[..size]
}
