// The draw on a row of records: the byte form draws on their bytes (gpu/mod.rs, `render_scanline`).

#![tactic(auto)]

ghost use Rattle.refusals.specs.Refusal.{outcome_number};
ghost use Rattle.gpu_judge.specs.Judge.{call_of};
ghost use Rattle.gpu_draw_records.specs.Draw.{DrawsRecords};

use bg_points::References;
use gpu::draw_request;
use gpu_judge::{Picture, Request};
use gpu_records::{ObjBufferEntry, Records, decode_row, encode_row};
use memory::Output;
use refusals::Refusal;

// A line drawn over a row of 240 records; the row is written only where a picture is drawn, since a record whose priority a
// byte doesn't hold would come back as another.
pub fn draw_records(
    reading: u32,
    line: u32,
    references: References,
    vram: &[u8],
    palette: &[u8],
    oam: &[u8],
    registers: &[u8],
    entries: &mut [ObjBufferEntry],
    output: &mut [u8],
) -> Result<(), Refusal>
    ensures { DrawsRecords
        (call_of reading line references
        vram.now palette.now oam.now registers.now)
        entries.old output.old (outcome_number result) entries.new output.new }
{
    let request = Request::new(reading, line, references, vram, palette, oam, registers)?;
    let row: &mut Records = entries.as_mut_array().ok_or(Refusal::BadLength)?;
    let output: &mut Output = output.as_mut_array().ok_or(Refusal::BadLength)?;
    let mut bytes = encode_row(row);
    match draw_request(&request, &mut bytes, output)? {
        Picture::Blank => {}
        Picture::Drawn => *row = decode_row(&bytes),
    }
    Ok(())
}
