// The reads and stores of a list, each compared with the oracle's answer.

use crate::compare::{Difference, compare_fields, compare_numbers};
use crate::list::{Head, OAM_ROOM, PALETTE_ROOM, REGISTERS_ROOM, Word, lent, lent_mut};
use ashlarkin::{ashlarkin_read8, ashlarkin_store8, ashlarkin_store16};

// The palette and the OAM of reads and stores, which no draw sees.
#[derive(Drop)]
pub(crate) struct Bus {
    palette: [u8; PALETTE_ROOM],
    oam: [u8; OAM_ROOM],
}

impl Bus {
    pub(crate) fn new() -> Bus {
        Bus {
            palette: [0; PALETTE_ROOM],
            oam: [0; OAM_ROOM],
        }
    }

    // A byte read.
    pub(crate) fn replay_read(&self, head: &Head, images: &[u8]) -> Result<(), Difference> {
        let byte = ashlarkin_read8(
            head.word(Word::ADDRESS),
            lent(images, head.size(Word::Vram)),
            lent(&self.palette, head.size(Word::Palette)),
            lent(&self.oam, head.size(Word::Oam)),
        );
        compare_fields(
            byte.number,
            &[byte.value],
            head.word(Word::Number),
            &[head.word(Word::VALUE)],
        )
    }

    // A byte store; of its registers only DISPCNT's low byte isn't 0.
    pub(crate) fn replay_store8(
        &mut self,
        head: &Head,
        images: &mut [u8],
    ) -> Result<(), Difference> {
        let mut registers = [0; REGISTERS_ROOM];
        registers[0] = head.byte(Word::DISPCNT);
        let number = ashlarkin_store8(
            head.word(Word::ADDRESS),
            head.byte(Word::VALUE),
            lent(&registers, head.size(Word::Registers)),
            lent_mut(images, head.size(Word::Vram)),
            lent_mut(&mut self.palette, head.size(Word::Palette)),
            lent_mut(&mut self.oam, head.size(Word::Oam)),
        );
        compare_numbers(number, head.word(Word::Number))
    }

    // A halfword store.
    pub(crate) fn replay_store16(
        &mut self,
        head: &Head,
        images: &mut [u8],
    ) -> Result<(), Difference> {
        let number = ashlarkin_store16(
            head.word(Word::ADDRESS),
            head.half(Word::VALUE),
            lent_mut(images, head.size(Word::Vram)),
            lent_mut(&mut self.palette, head.size(Word::Palette)),
            lent_mut(&mut self.oam, head.size(Word::Oam)),
        );
        compare_numbers(number, head.word(Word::Number))
    }
}
