// The draw on numbers and bytes (gpu/mod.rs).

#![tactic(auto)]

ghost use Rattle.std.specs.Prelude.{◌≡◌, ◌<◌, false, get_or};
ghost use Rattle.refusals.specs.Refusal.{outcome_number};
ghost use Rattle.rgb15.specs.Colour.{rgb};
ghost use Rattle.rows.specs.Tab.{tab};
ghost use Rattle.bg.specs.Code.{Drawable};
ghost use Rattle.gpu_judge.specs.Judge.{call_of};
ghost use Rattle.gpu_judge.specs.Code.{Pictured, judged, call_in};
ghost use Rattle.gpu.specs.Line.{entries_after, line_after, blank_line};
ghost use Rattle.gpu.specs.Code.{color_if_on};
ghost use Rattle.gpu.specs.Draw.{given, Draws};

use bg::render_bg;
use bg_points::References;
use gpu_judge::{Picture, Request};
use memory::{Colors, DISPLAY_WIDTH, Output, Registers};
use obj::render_objs;
use obj_entries::Entries;
use refusals::Refusal;
use regs::iodev::read_dispcnt;
use rgb15::Rgb15;
use rows::put_word;
use sfx::finalize_scanline;
use std::array;

// What forced blank shows.
const BLANK: u32 = 0xf8f8f8;

// The line of a background if it is on, else a transparent one, which the order passes over.
pub fn bg_line(
    colors: Colors,
    registers: &Registers,
    references: References,
    on: bool,
    bg: usize,
    line: usize,
) -> [Rgb15; DISPLAY_WIDTH]
    requires { Drawable registers.now references bg line }
    ensures { result ≡ tab (λ column. rgb (color_if_on on colors.entry.vram.now colors.entry.palette.now
        registers.now references bg column line)) 240 }
{
    if on {
        render_bg(colors, registers, references, bg, line)
    } else {
        [Rgb15::TRANSPARENT; DISPLAY_WIDTH]
    }
}

// The lines of backgrounds 0 to 3, and the line composed of them and the entries.
fn render_line(request: &Request, entries: &Entries, output: &mut Output)
    requires { Pictured request.now }
    ensures { output.new ≡ line_after (call_in request.now) entries.now }
{
    let memory = &request.memory;
    let colors = Colors {
        vram: memory.vram,
        palette: memory.palette,
    };
    let registers = memory.registers;
    let references = request.references;
    let y = request.line as usize;
    let on = read_dispcnt(registers).enable_bg;
    let lines = array::from_fn(
        |bg: usize| -> [Rgb15; DISPLAY_WIDTH]
            requires { Drawable registers.now references bg y }
            ensures { result ≡ tab (λ column. rgb (color_if_on (get_or on bg false) colors.entry.vram.now
                colors.entry.palette.now registers.entry.now references bg column y)) 240 }
        { bg_line(colors, registers, references, on[bg], bg, y) },
    );
    finalize_scanline(
        output,
        entries,
        memory.palette,
        registers,
        request.reading,
        y,
        &lines,
    );
}

// The sprites put in the entries, if sprites are on.
fn update_objs(request: &Request, entries: &mut Entries)
    requires { request.now.line < 160 }
    ensures { entries.new ≡ entries_after (call_in request.now) entries.old }
{
    let memory = &request.memory;
    let display = read_dispcnt(memory.registers);
    if display.enable_obj {
        render_objs(entries, memory, request.reading, request.line as usize);
    }
}

// A line of forced blank.
fn blank_line(output: &mut Output)
    ensures { output.new ≡ blank_line }
{
    for x in 0..DISPLAY_WIDTH {
        put_word(output, x, BLANK);
    }
}

// What is asked for drawn, or refused with nothing changed.
pub fn draw_request(
    request: &Request,
    entries: &mut Entries,
    output: &mut Output,
) -> Result<Picture, Refusal>
    ensures judged { result ≡ judged request.now entries.old }
    ensures given { record { number = outcome_number result; entries = entries.new; output = output.new }
        ≡ given result (call_in request.now) entries.old output.old }
{
    let picture = request.judge(entries)?;
    match picture {
        Picture::Blank => blank_line(output),
        Picture::Drawn => {
            update_objs(request, entries);
            render_line(request, entries, output);
        }
    }
    Ok(picture)
}

// A line drawn, or refused with nothing lent changed (the Rust's `render_scanline`).
pub fn draw(
    reading: u32,
    line: u32,
    references: References,
    vram: &[u8],
    palette: &[u8],
    oam: &[u8],
    registers: &[u8],
    entries: &mut [u8],
    output: &mut [u8],
) -> Result<(), Refusal>
    ensures { Draws
        (call_of reading line references
        vram.now palette.now oam.now registers.now)
        entries.old output.old (outcome_number result) entries.new output.new }
{
    let request = Request::new(reading, line, references, vram, palette, oam, registers)?;
    let entries: &mut Entries = entries.as_mut_array().ok_or(Refusal::BadLength)?;
    let output: &mut Output = output.as_mut_array().ok_or(Refusal::BadLength)?;
    draw_request(&request, entries, output)?;
    Ok(())
}
