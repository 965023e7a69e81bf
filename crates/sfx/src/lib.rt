// Composing a line (gpu/sfx.rs). The loops over columns work on halfwords, of which a vector holds eight.

#![tactic(auto)]

ghost use Rattle.std.specs.Prelude.{◌≡◌, ◌≤◌, ◌<◌, true, get_or, None, []};
ghost use Rattle.rgb15.specs.Colour.{rgb, to_rgb24};
ghost use Rattle.rows.specs.Cells.{cell_at, row_of};
ghost use Rattle.rows.specs.Tab.{tab};
ghost use Rattle.rows.specs.Words.{word_cells};
ghost use Rattle.memory.specs.Palette.{backdrop};
ghost use Rattle.regs.specs.Registers.{bldy};
ghost use Rattle.regs.specs.Reading.{counted};
ghost use Rattle.obj_entries.specs.Entry.{entry_cells};
ghost use Rattle.sfx_sorting.specs.Code.{number_in};
ghost use Rattle.sfx_layers.specs.Layers.{backgrounds};
ghost use Rattle.sfx_layers.specs.Code.{line_color, Unmarked, object_tag};
ghost use Rattle.sfx.specs.Code.{line_in, column_color, is_plain};
ghost use Rattle.sfx.specs.Pixel.{pixel};

use memory::{DISPLAY_WIDTH, Output, PaletteRam, Registers};
use obj_entries::{Entries, entry_at};
use regs::Reading;
use regs_blend::BlendMode;
use rgb15::Rgb15;
use rows::put_word;
use sfx_effects::{Weights, do_effect, line_weights};
use sfx_layers::{
    EFFECTS_PART, LineLayers, SEMI_OBJECT, column_pair, is_permitted, line_layers, line_regions,
    object_tag,
};
use sfx_sorting::{Background, sort_backgrounds};
use std::array;

// What a line is composed of, column by column: what its region permits, its object's tag and colour, and the lines of the four
// places.
#[derive(Clone, Copy)]
struct Rows<'a> {
    regions: &'a [u16; DISPLAY_WIDTH],
    tags: &'a [u16; DISPLAY_WIDTH],
    objects: &'a [u16; DISPLAY_WIDTH],
    first: &'a [Rgb15; DISPLAY_WIDTH],
    second: &'a [Rgb15; DISPLAY_WIDTH],
    third: &'a [Rgb15; DISPLAY_WIDTH],
    fourth: &'a [Rgb15; DISPLAY_WIDTH],
}

impl<'a> Rows<'a> {
    // The colour of a column; BLENDS is whether layers of the line can be blended, as for `do_effect`.
    fn color<const BLENDS: bool>(&self, line: LineLayers, weights: Weights, column: usize) -> Rgb15
        requires { column < 240 }
        ensures { result.0 ≡ column_color BLENDS line weights self.now column }
    {
        let region = self.regions[column];
        let colors = [
            self.first[column],
            self.second[column],
            self.third[column],
            self.fourth[column],
        ];
        let layers = column_pair(
            line,
            region,
            self.tags[column],
            self.objects[column],
            colors,
        );
        do_effect::<BLENDS, _>(
            weights,
            line.mode,
            is_permitted(region, EFFECTS_PART),
            layers,
        )
    }

    // Whether no object of the line is semi-transparent: all tags are asked, which is quicker than to stop at the first that is.
    fn is_plain(&self) -> bool
        ensures { result ≡ is_plain self.now.tags.now }
    {
        let mut plain = true;
        for column in 0..DISPLAY_WIDTH {
            plain &= self.tags[column] / SEMI_OBJECT % 2 == 0;
        }
        plain
    }

    // The colours of the line, by the tops alone where that is enough.
    fn compose(&self, line: LineLayers, weights: Weights) -> [Rgb15; DISPLAY_WIDTH]
        requires { Unmarked line }
        ensures { result ≡ tab (λ column. rgb (column_color true line weights self.now column)) 240 }
    {
        let plain = self.is_plain();
        if (line.mode != BlendMode::BldAlpha) & plain {
            array::from_fn(|column| self.color::<false>(line, weights, column))
        } else {
            array::from_fn(|column| self.color::<true>(line, weights, column))
        }
    }
}

// The colours of a line's entries.
fn object_colors(entries: &Entries) -> [u16; DISPLAY_WIDTH]
    ensures { result ≡ tab (λ column. (cell_at entry_cells entries.now column).color.0) 240 }
{
    array::from_fn(|column| entry_at(entries, column).color.0)
}

// The tags of a line's entries as layers.
fn object_tags(entries: &Entries, tag: u16) -> [u16; DISPLAY_WIDTH]
    requires { tag ≤ 3 }
    ensures { result ≡ tab (λ column. object_tag tag (cell_at entry_cells entries.now column)) 240 }
{
    array::from_fn(|column| object_tag(tag, entry_at(entries, column)))
}

// The line of the background in place k; where it has none, the region permits no line, so any serves.
fn line_in_place(
    lines: &[[Rgb15; DISPLAY_WIDTH]; 4],
    places: [Option<Background>; 4],
    k: usize,
) -> &[Rgb15; DISPLAY_WIDTH]
    requires { k < 4 }
    ensures { result.now ≡ line_in lines.now (number_in (get_or places k None)) }
{
    match places[k] {
        Some(bg) => &lines[bg.number],
        None => &lines[0],
    }
}

// The output of a row of colours, each in its 24-bit form.
fn write_row(output: &mut Output, colors: &[Rgb15; DISPLAY_WIDTH])
    ensures { output.new ≡ row_of word_cells (λ column. to_rgb24 (line_color colors.now column)) 240 }
{
    for column in 0..DISPLAY_WIDTH {
        put_word(output, column, colors[column].to_rgb24());
    }
}

// A line composed and written, of the lines of backgrounds 0 to 3; they are sorted once for all its columns.
pub fn finalize_scanline(
    output: &mut Output,
    entries: &Entries,
    palette: &PaletteRam,
    registers: &Registers,
    reading: Reading,
    line: usize,
    lines: &[[Rgb15; DISPLAY_WIDTH]; 4],
)
    requires { counted reading (bldy registers.now) ≤ 16 }
    ensures { output.new
        ≡ row_of word_cells
        (λ column.
        pixel reading registers.now (backdrop palette.now)
        (backgrounds registers.now (λ bg. line_color (get_or lines.now bg []) column))
        (cell_at entry_cells entries.now column)
        column line)
        240 }
{
    let places = sort_backgrounds(registers);
    let layers = line_layers(palette, registers, places);
    let rows = Rows {
        regions: &line_regions(entries, registers, reading, line, places),
        tags: &object_tags(entries, layers.object),
        objects: &object_colors(entries),
        first: line_in_place(lines, places, 0),
        second: line_in_place(lines, places, 1),
        third: line_in_place(lines, places, 2),
        fourth: line_in_place(lines, places, 3),
    };
    let colors = rows.compose(layers, line_weights(registers, reading));
    write_row(output, &colors);
}
