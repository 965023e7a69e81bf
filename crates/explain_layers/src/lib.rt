// The two layers of one column, by name (gpu/sfx.rs, `finalize_pixel`; gpu/layer.rs).

#![tactic(auto)]

ghost use Rattle.std.specs.Prelude.{◌≡◌, ◌<◌, cond, get_or, None};
ghost use Rattle.rgb15.specs.Colour.{rgb};
ghost use Rattle.sfx_layers.specs.Layers.{backgrounds, object_layer, placed, layers};
ghost use Rattle.sfx_layers.specs.Code.{is_seen};
ghost use Rattle.explain_layers.specs.Code.{as_layer, as_pair, put_place, LayersOf};

use memory::Registers;
use obj_entries::Entry;
use regs::iodev::{read_bgcnt, read_dispcnt};
use regs_blend::RenderLayerKind;
use regs_window::WindowFlags;
use rgb15::Rgb15;
use sfx_sorting::{Background, sort_backgrounds};

// The Rust's RenderLayer.
#[derive(Clone, Copy)]
pub struct Layer {
    pub kind: RenderLayerKind,
    pub priority: u16,
    pub color: Rgb15,
}

// What a column's pixel is made of.
#[derive(Clone, Copy)]
pub struct Layers {
    pub top: Layer,
    pub bottom: Layer,
}

// The background of place k over what is behind it, if it is shown: the top that it covers becomes the bottom.
#[tactic(auto, unfolding(crate::specs::Code::put_place))]
fn put_place(
    registers: &Registers,
    flags: WindowFlags,
    places: [Option<Background>; 4],
    k: usize,
    colors: [Rgb15; 4],
    behind: Layers,
) -> Layers
    requires { k < 4 }
    ensures { as_pair result ≡ put_place registers.now flags.0 (get_or places k None) colors (as_pair behind) }
{
    match places[k] {
        Some(bg) => {
            let color = colors[bg.number];
            if flags.bg_enabled(bg.number) & !color.is_transparent() {
                let top = Layer {
                    kind: RenderLayerKind::background(bg.number),
                    priority: read_bgcnt(registers, bg.number).priority,
                    color,
                };
                let bottom = behind.top;
                return Layers { top, bottom };
            }
            behind
        }
        None => behind,
    }
}

// An object over what is behind it: on top if its priority is at most the top's, else second if at most the bottom's.
fn place_object(behind: Layers, object: Layer) -> Layers
    ensures { as_pair result ≡ placed (as_layer object) (as_pair behind) }
{
    let top = behind.top;
    let bottom = behind.bottom;
    if object.priority <= top.priority {
        return Layers {
            top: object,
            bottom: top,
        };
    }
    if object.priority <= bottom.priority {
        return Layers {
            top,
            bottom: object,
        };
    }
    behind
}

// The object of an entry over what is behind it, if it is shown.
fn put_object(behind: Layers, permitted: bool, e: Entry) -> Layers
    ensures { as_pair result ≡ cond (is_seen permitted e.color.0) (placed (object_layer e) (as_pair behind)) (as_pair behind) }
{
    let color = e.color;
    if permitted & !color.is_transparent() {
        let object = Layer {
            kind: RenderLayerKind::Objects,
            priority: u16::from(e.priority),
            color,
        };
        return place_object(behind, object);
    }
    behind
}

// The layers of a column, by what its region permits, the backdrop, the colour of each background and the column's entry.
// Backgrounds are put from the last place to the first, so that the first two that count end on top.
pub fn column_layers(
    registers: &Registers,
    flags: WindowFlags,
    backdrop: Rgb15,
    colors: [Rgb15; 4],
    e: Entry,
) -> Layers
    ensures { LayersOf
        (layers registers.now flags.0 backdrop.0
        (backgrounds registers.now (λ bg. (get_or colors bg (rgb 0)).0)) e)
        result }
{
    let dispcnt = read_dispcnt(registers);
    let places = sort_backgrounds(registers);
    let back = Layer {
        kind: RenderLayerKind::Backdrop,
        priority: 4,
        color: backdrop,
    };
    let behind = Layers {
        top: back,
        bottom: back,
    };
    let fourth = put_place(registers, flags, places, 3, colors, behind);
    let third = put_place(registers, flags, places, 2, colors, fourth);
    let second = put_place(registers, flags, places, 1, colors, third);
    let first = put_place(registers, flags, places, 0, colors, second);
    put_object(first, flags.obj_enabled() & dispcnt.enable_obj, e)
}
