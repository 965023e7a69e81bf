// Why a column has its colour (beside no file of the Rust; `finalize_pixel` of gpu/sfx.rs has the cases).

#![tactic(auto)]

ghost use Rattle.std.specs.Prelude.{◌≡◌, ◌≤◌, ◌<◌, false, get_or};
ghost use Rattle.refusals.specs.Refusal.{refusal_number};
ghost use Rattle.rgb15.specs.Colour.{rgb};
ghost use Rattle.rows.specs.Cells.{cell_at};
ghost use Rattle.memory.specs.Palette.{backdrop};
ghost use Rattle.regs.specs.Registers.{bldy};
ghost use Rattle.regs.specs.Reading.{counted};
ghost use Rattle.obj_entries.specs.Entry.{entry_cells};
ghost use Rattle.bg.specs.Code.{Drawable};
ghost use Rattle.sfx_layers.specs.Layers.{backgrounds};
ghost use Rattle.sfx.specs.Pixel.{case_of};
ghost use Rattle.gpu_judge.specs.Judge.{call_of};
ghost use Rattle.gpu_judge.specs.Code.{Pictured, call_in};
ghost use Rattle.gpu.specs.Code.{color_if_on};
ghost use Rattle.gpu.specs.Line.{entries_after};
ghost use Rattle.explain.specs.Reason.{region_number, refused_reason, blank_reason, case_reason};
ghost use Rattle.explain.specs.Explain.{Explains};
ghost use Rattle.explain.specs.Code.{ReasonAt, found};

use bg_points::References;
use explain_effects::{column_effect, effect_weights};
use explain_layers::column_layers;
use explain_obj::column_entry;
use explain_region::column_region;
use gpu::bg_line;
use gpu_judge::{Picture, Request};
use memory::{Colors, DISPLAY_WIDTH, Memory, read_backdrop};
use obj_entries::{Entries, Entry, entry_at};
use refusals::Refusal;
use regs::Reading;
use regs::iodev::read_dispcnt;
use rgb15::Rgb15;
use sfx_regions::{WindowType, window_flags};
use std::array;

// Columns of the screen, as a column is asked for.
const COLUMNS: u32 = DISPLAY_WIDTH as u32;

// What no layer is named by.
const NO_LAYER: u32 = 6;

// What forced blank shows.
const BLANK: u32 = 0xf8f8f8;

// The region, the two layers, the effect and the weights of a column, by their numbers, and the pixel that follows.
#[repr(C)]
#[derive(Clone, Copy, Default)]
pub struct Reason {
    pub number: u32,
    pub blank: u32,
    pub region: u32,
    pub top: u32,
    pub bottom: u32,
    pub effect: u32,
    pub top_color: u16,
    pub bottom_color: u16,
    pub first_weight: u16,
    pub second_weight: u16,
    pub pixel: u32,
}

// The number of a region.
fn region_number(kind: WindowType) -> u32
    ensures { result ≡ region_number kind }
{
    match kind {
        WindowType::WinNone => 0,
        WindowType::Win0 => 1,
        WindowType::Win1 => 2,
        WindowType::WinObj => 3,
        WindowType::WinOut => 4,
    }
}

impl Reason {
    // A reason that names nothing but the number of a refusal.
    fn refused(refusal: Refusal) -> Reason
        ensures { result ≡ refused_reason (refusal_number refusal) }
    {
        Reason {
            number: u32::from(refusal),
            ..Reason::default()
        }
    }

    // The reason of a column under forced blank.
    fn blank() -> Reason
        ensures { result ≡ blank_reason }
    {
        Reason {
            blank: 1,
            top: NO_LAYER,
            bottom: NO_LAYER,
            pixel: BLANK,
            ..Reason::default()
        }
    }
}

// The entry of a column as it stands after the draw.
fn entry_after(request: &Request, entries: &Entries, column: usize) -> Entry
    requires { (request.now.line < 160) × (column < 240) }
    ensures { result ≡ cell_at entry_cells (entries_after (call_in request.now) entries.now) column }
{
    let memory = &request.memory;
    let e = entry_at(entries, column);
    let dispcnt = read_dispcnt(memory.registers);
    if dispcnt.enable_obj {
        column_entry(e, memory, request.reading, request.line as usize, column)
    } else {
        e
    }
}

// The reason of a column, by its entry and the colours of backgrounds 0 to 3.
fn compose_reason(
    memory: &Memory,
    reading: Reading,
    line: usize,
    column: usize,
    colors: [Rgb15; 4],
    e: Entry,
) -> Reason
    requires { counted reading (bldy memory.now.registers) ≤ 16 }
    ensures { result
        ≡ case_reason reading memory.now.registers
        (case_of reading memory.now.registers (backdrop memory.now.palette)
        (backgrounds memory.now.registers (λ bg. (get_or colors bg (rgb 0)).0))
        e column line) }
{
    let registers = memory.registers;
    let kind = column_region(registers, reading, e.marks / 0x2 % 2 == 1, column, line);
    let flags = window_flags(registers, kind);
    let layers = column_layers(registers, flags, read_backdrop(memory.palette), colors, e);
    let top = layers.top;
    let bottom = layers.bottom;
    let effect = column_effect(
        registers,
        flags,
        e.marks / 0x1 % 2 == 1,
        top.kind,
        bottom.kind,
    );
    let weights = effect_weights(registers, reading, effect);
    Reason {
        number: 0,
        blank: 0,
        region: region_number(kind),
        top: u32::from(top.kind.target_bit()),
        bottom: u32::from(bottom.kind.target_bit()),
        effect: u32::from(effect),
        top_color: top.color.0,
        bottom_color: bottom.color.0,
        first_weight: weights.first,
        second_weight: weights.second,
        pixel: effect.pixel(weights, top.color, bottom.color),
    }
}

// The reason of a column of an accepted draw.
fn explain_column(request: &Request, entries: &Entries, column: usize) -> Reason
    requires { Pictured request.now × (column < 240) }
    ensures { ReasonAt (call_in request.now) entries.now column result }
{
    let memory = &request.memory;
    let lent = Colors {
        vram: memory.vram,
        palette: memory.palette,
    };
    let registers = memory.registers;
    let references = request.references;
    let y = request.line as usize;
    let on = read_dispcnt(registers).enable_bg;
    let colors = array::from_fn(
        |bg: usize| -> Rgb15
            requires { Drawable registers.now references bg y × (column < 240) }
            ensures { result ≡ rgb (color_if_on (get_or on bg false) lent.entry.vram.now lent.entry.palette.now
                registers.entry.now references bg column y) }
        {
            let row = bg_line(lent, registers, references, on[bg], bg, y);
            row[column]
        },
    );
    let e = entry_after(request, entries, column);
    compose_reason(memory, request.reading, y, column, colors, e)
}

// The reason of a column, or the refusal: the draw's, of an output that has its length, and then that of the column.
fn find_reason(
    reading: u32,
    line: u32,
    references: References,
    vram: &[u8],
    palette: &[u8],
    oam: &[u8],
    registers: &[u8],
    entries: &[u8],
    column: u32,
) -> Result<Reason, Refusal>
    ensures { result
        ≡ found
        (call_of reading line references
        vram.now palette.now oam.now registers.now)
        entries.now column }
{
    let request = Request::new(reading, line, references, vram, palette, oam, registers)?;
    let entries: &Entries = entries.as_array().ok_or(Refusal::BadLength)?;
    let picture = request.judge(entries)?;
    if column >= COLUMNS {
        return Err(Refusal::BadColumn);
    }
    match picture {
        Picture::Blank => Ok(Reason::blank()),
        Picture::Drawn => Ok(explain_column(&request, entries, column as usize)),
    }
}

// Why a column of a draw has its colour, or a refusal; nothing lent is written.
pub fn explain(
    reading: u32,
    line: u32,
    references: References,
    vram: &[u8],
    palette: &[u8],
    oam: &[u8],
    registers: &[u8],
    entries: &[u8],
    column: u32,
) -> Reason
    ensures { Explains
        (call_of reading line references
        vram.now palette.now oam.now registers.now)
        entries.now column result }
{
    match find_reason(
        reading, line, references, vram, palette, oam, registers, entries, column,
    ) {
        Ok(reason) => reason,
        Err(refusal) => Reason::refused(refusal),
    }
}
