// The routines that a host program calls, here for other crates: crates/ashlarkin_c exports them to C under the same names,
// and include/ashlarkin.h says the same in C. Lent buffers don't overlap.

#![tactic(auto)]

ghost use Rattle.gpu_judge.specs.Judge.{call_of};
ghost use Rattle.gpu.specs.Draw.{Draws};
ghost use Rattle.obj_entries.specs.Reset.{Resets};
ghost use Rattle.gpu_step.specs.Step.{StepsTo};
ghost use Rattle.gpu_draw_records.specs.Draw.{DrawsRecords};
ghost use Rattle.gpu_records.specs.Step.{StepsRecords};
ghost use Rattle.explain.specs.Explain.{Explains};
ghost use Rattle.gpu_bus.specs.Memories.{memories_of};
ghost use Rattle.gpu_bus.specs.Read.{Reads};
ghost use Rattle.gpu_bus.specs.Store.{Store8, Store16, Stores};

use bg_points::References;
use explain::Reason;
use gpu_bus::Byte;
use gpu_records::{BgAffine, ObjBufferEntry};
use gpu_step::Steps;
use refusals::number;

// A line drawn: 0, or the number of the refusal, which changes nothing lent.
pub fn ashlarkin_draw(
    reading: u32,
    line: u32,
    x2: i32,
    y2: i32,
    x3: i32,
    y3: i32,
    vram: &[u8],
    palette: &[u8],
    oam: &[u8],
    registers: &[u8],
    entries: &mut [u8],
    output: &mut [u8],
) -> u32
    ensures { Draws
        (call_of reading line (record { x2 = x2; y2 = y2; x3 = x3; y3 = y3 })
        vram.now palette.now oam.now registers.now)
        entries.old output.old result entries.new output.new }
{
    number(gpu::draw(
        reading,
        line,
        References { x2, y2, x3, y3 },
        vram,
        palette,
        oam,
        registers,
        entries,
        output,
    ))
}

// A row of entries reset: 0, or 2 for another length.
pub fn ashlarkin_reset(entries: &mut [u8]) -> u32
    ensures { Resets entries.old result entries.new }
{
    number(obj_entries::reset(entries))
}

// The four reference numbers stepped at a line's end: 0, or 2 for another length, or 6.
pub fn ashlarkin_step(pb2: i16, pd2: i16, pb3: i16, pd3: i16, references: &mut [u8]) -> u32
    ensures { StepsTo (record { pb2 = pb2; pd2 = pd2; pb3 = pb3; pd3 = pd3 }) references.old result references.new }
{
    number(gpu_step::step(Steps { pb2, pd2, pb3, pd3 }, references))
}

// Both backgrounds stepped at a line's end, each in place: 0, or 6 with both as they were.
pub fn ashlarkin_step_records(bg2: &mut BgAffine, bg3: &mut BgAffine) -> u32
    ensures { StepsRecords bg2.old bg3.old result bg2.new bg3.new }
{
    number(gpu_records::step_pair(bg2, bg3))
}

// A line drawn over a row of 240 records, with the byte form's answers; the row is written only where the line is drawn.
pub fn ashlarkin_draw_records(
    reading: u32,
    line: u32,
    x2: i32,
    y2: i32,
    x3: i32,
    y3: i32,
    vram: &[u8],
    palette: &[u8],
    oam: &[u8],
    registers: &[u8],
    entries: &mut [ObjBufferEntry],
    output: &mut [u8],
) -> u32
    ensures { DrawsRecords
        (call_of reading line (record { x2 = x2; y2 = y2; x3 = x3; y3 = y3 })
        vram.now palette.now oam.now registers.now)
        entries.old output.old result entries.new output.new }
{
    number(gpu_draw_records::draw_records(
        reading,
        line,
        References { x2, y2, x3, y3 },
        vram,
        palette,
        oam,
        registers,
        entries,
        output,
    ))
}

// Why a column of a line has its colour, by the entries as they stand after the draw; its number is 0 or the refusal's.
pub fn ashlarkin_explain(
    reading: u32,
    line: u32,
    x2: i32,
    y2: i32,
    x3: i32,
    y3: i32,
    vram: &[u8],
    palette: &[u8],
    oam: &[u8],
    registers: &[u8],
    entries: &[u8],
    column: u32,
) -> Reason
    ensures { Explains
        (call_of reading line (record { x2 = x2; y2 = y2; x3 = x3; y3 = y3 })
        vram.now palette.now oam.now registers.now)
        entries.now column result }
{
    explain::explain(
        reading,
        line,
        References { x2, y2, x3, y3 },
        vram,
        palette,
        oam,
        registers,
        entries,
        column,
    )
}

// The byte at an address of pages 5 to 7: its number is 0, or 2 or 9 with value 0.
pub fn ashlarkin_read8(address: u32, vram: &[u8], palette: &[u8], oam: &[u8]) -> Byte
    ensures { Reads address (memories_of vram.now palette.now oam.now) result }
{
    Byte::from(gpu_bus::read_8(address, vram, palette, oam))
}

// A byte stored to pages 5 to 7, by the mode in the registers: 0, written or not, or 2 or 9.
pub fn ashlarkin_store8(
    address: u32,
    value: u8,
    registers: &[u8],
    vram: &mut [u8],
    palette: &mut [u8],
    oam: &mut [u8],
) -> u32
    ensures { Stores (Store8 registers.now address value)
        (memories_of vram.old palette.old oam.old)
        result
        (memories_of vram.new palette.new oam.new) }
{
    number(gpu_bus::write_8(address, value, registers, vram, palette, oam))
}

// A halfword stored to pages 5 to 7: 0, or 2, 9 or 11.
pub fn ashlarkin_store16(
    address: u32,
    value: u16,
    vram: &mut [u8],
    palette: &mut [u8],
    oam: &mut [u8],
) -> u32
    ensures { Stores (Store16 address value)
        (memories_of vram.old palette.old oam.old)
        result
        (memories_of vram.new palette.new oam.new) }
{
    number(gpu_bus::write_16(address, value, vram, palette, oam))
}
