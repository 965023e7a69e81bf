// The layers of a column (gpu/layer.rs), each as two halfwords, which a loop over columns chooses between without branches.
ghost use Rattle.std.specs.Prelude.{◌≡◌, ◌≤◌, ◌<◌, get_or, map, None};
ghost use Rattle.sfx_sorting.specs.Code.{number_in};
ghost use Rattle.sfx_layers.specs.Code.{mode_numbered, as_bit, layer_tag, object_tag, place_tag, LineLayersOf};
ghost use Rattle.sfx_layers.specs.Code.{is_seen, put_background, background_pair, put_object, column_pair};

use crate::region::{OBJECTS_PART, is_permitted};
use memory::{PaletteRam, Registers, read_backdrop};
use obj_entries::Entry;
use regs::iodev::read_bgcnt;
use regs_blend::{BlendControl, BlendMode, RenderLayerKind, read_bldcnt};
use rgb15::Rgb15;
use rows::choose;
use sfx_sorting::{Background, Place};
use std::array;

// The parts of a layer's tag: whether it is a first target, a second target, a semi-transparent object; above, the priority.
pub const FIRST_TARGET: u16 = 0x1;

pub const SECOND_TARGET: u16 = 0x2;

pub const SEMI_OBJECT: u16 = 0x4;

const PRIORITY: u16 = 0x8;

// The numbers of two of the control's effects: 0 is none, and from 3 on it is black.
pub const MODE_ALPHA: u16 = 1;

pub const MODE_WHITE: u16 = 2;

// The top and the bottom layer of a column, the colour and the tag of each. No layer is passed on or chosen whole: the
// compiler would take its two halfwords for one word, of which a vector holds half as many.
#[derive(Clone, Copy)]
pub struct LayerPair {
    pub top: u16,
    pub top_tag: u16,
    pub bottom: u16,
    pub bottom_tag: u16,
}

// What a line's layers have in common at every column: the tag of each place's background, that of objects, the backdrop,
// and the control's effect, or its number, which no column's layers go by.
#[derive(Clone, Copy)]
pub struct LineLayers<M = BlendMode> {
    pub places: [u16; 4],
    pub object: u16,
    pub backdrop: u16,
    pub backdrop_tag: u16,
    pub mode: M,
}

// The control's effect of a number, any at all.
#[tactic(auto, unfolding(crate::specs::Code::mode_numbered))]
pub fn mode_numbered(number: u16) -> BlendMode
    ensures { result ≡ mode_numbered number }
{
    match number {
        0 => BlendMode::BldNone,
        MODE_ALPHA => BlendMode::BldAlpha,
        MODE_WHITE => BlendMode::BldWhite,
        _ => BlendMode::BldBlack,
    }
}

// A truth value as a bit.
pub(crate) fn bit_of(set: bool) -> u16
    ensures { (result ≡ as_bit set) × (result ≤ 1) }
{
    u16::from(set)
}

// All of a layer but its colour.
fn layer_tag(control: BlendControl, kind: RenderLayerKind, priority: u16) -> u16
    requires { priority ≤ 4 }
    ensures { result ≡ layer_tag control.target1.0 control.target2.0 kind priority }
{
    let first = bit_of(control.target1.contains_render_layer(kind));
    let second = bit_of(control.target2.contains_render_layer(kind));
    FIRST_TARGET * first + SECOND_TARGET * second + PRIORITY * priority
}

// The tag of the background in place k; 0 if it has none.
#[tactic(auto, unfolding(crate::specs::Code::place_tag))]
fn place_tag(
    registers: &Registers,
    control: BlendControl,
    places: [Option<Background>; 4],
    k: usize,
) -> u16
    requires { k < 4 }
    ensures { result ≡ place_tag registers.now control.target1.0 control.target2.0 (number_in (get_or places k None)) }
{
    match places[k] {
        Some(bg) => {
            let priority = read_bgcnt(registers, bg.number).priority;
            layer_tag(control, RenderLayerKind::background(bg.number), priority)
        }
        None => 0,
    }
}

// A line's layers, for its places.
pub fn line_layers<P: Place>(
    palette: &PaletteRam,
    registers: &Registers,
    places: [P; 4],
) -> LineLayers
    ensures { LineLayersOf palette.now registers.now (map P.held places) result }
{
    let places = Background::in_places(places);
    let control = read_bldcnt(registers);
    LineLayers {
        places: array::from_fn(|k| place_tag(registers, control, places, k)),
        object: layer_tag(control, RenderLayerKind::Objects, 0),
        backdrop: read_backdrop(palette).0,
        backdrop_tag: layer_tag(control, RenderLayerKind::Backdrop, 4),
        mode: control.mode,
    }
}

// An object's tag, by the one that all objects share.
pub fn object_tag(tag: u16, e: Entry) -> u16
    requires { tag ≤ 3 }
    ensures { result ≡ object_tag tag e }
{
    tag + SEMI_OBJECT * u16::from(e.marks % 2) + PRIORITY * u16::from(e.priority)
}

// Whether a pixel is permitted and opaque.
fn is_seen(permitted: bool, color: u16) -> bool
    ensures { result ≡ is_seen permitted color }
{
    permitted & !Rgb15(color).is_transparent()
}

// A background's pixel over what is behind it, if it is shown: the top that it covers becomes the bottom.
fn put_background(behind: LayerPair, permitted: bool, tag: u16, color: u16) -> LayerPair
    ensures { result ≡ put_background behind permitted tag color }
{
    let over = is_seen(permitted, color);
    LayerPair {
        top: choose(over, color, behind.top),
        top_tag: choose(over, tag, behind.top_tag),
        bottom: choose(over, behind.top, behind.bottom),
        bottom_tag: choose(over, behind.top_tag, behind.bottom_tag),
    }
}

// The layers of a column's backgrounds, put from the last place to the first: the first two that count, the backdrop
// filling in.
fn background_pair<M: Copy>(line: LineLayers<M>, region: u16, colors: [Rgb15; 4]) -> LayerPair
    ensures { result ≡ background_pair line region colors }
{
    let back = LayerPair {
        top: line.backdrop,
        top_tag: line.backdrop_tag,
        bottom: line.backdrop,
        bottom_tag: line.backdrop_tag,
    };
    let fourth = put_background(back, is_permitted(region, 3), line.places[3], colors[3].0);
    let third = put_background(fourth, is_permitted(region, 2), line.places[2], colors[2].0);
    let second = put_background(third, is_permitted(region, 1), line.places[1], colors[1].0);
    put_background(second, is_permitted(region, 0), line.places[0], colors[0].0)
}

// An object's pixel, if it is shown: on top if its priority is at most the top's, else second if at most the bottom's.
fn put_object(behind: LayerPair, permitted: bool, tag: u16, color: u16) -> LayerPair
    ensures { result ≡ put_object behind permitted tag color }
{
    let shown = is_seen(permitted, color);
    let first = shown & (tag / PRIORITY <= behind.top_tag / PRIORITY);
    let second = shown & (tag / PRIORITY <= behind.bottom_tag / PRIORITY);
    LayerPair {
        top: choose(first, color, behind.top),
        top_tag: choose(first, tag, behind.top_tag),
        bottom: choose(first, behind.top, choose(second, color, behind.bottom)),
        bottom_tag: choose(
            first,
            behind.top_tag,
            choose(second, tag, behind.bottom_tag),
        ),
    }
}

// The layers of a column, by what its region permits, its object's tag and colour and the colour of each place.
pub fn column_pair<M: Copy>(
    line: LineLayers<M>,
    region: u16,
    tag: u16,
    object: u16,
    colors: [Rgb15; 4],
) -> LayerPair
    ensures { result ≡ column_pair line region tag object colors }
{
    let backgrounds = background_pair(line, region, colors);
    put_object(backgrounds, is_permitted(region, OBJECTS_PART), tag, object)
}
