// The points of affine sprites and their colours (render/obj.rs: `get_affine_matrix`, and the sums of `render_affine_obj`).
// Every number is larger here by a bias, so that none is below 0.
ghost use Rattle.std.specs.Prelude.{◌≡◌, ◌+◌, ◌/◌, ◌^◌, ◌≤◌, ◌<◌, pos, ◌-ℤ◌};
ghost use Rattle.rgb15.specs.Colour.{rgb};
ghost use Rattle.rows.specs.Tab.{tab};
ghost use Rattle.obj_sprites.specs.Oam.{matrix};
ghost use Rattle.obj_sprites.specs.Place.{box_height, below};
ghost use Rattle.obj_sprites.specs.Code.{OnLine};
ghost use Rattle.obj_texels.specs.Code.{MatrixOf, StartOf, TurnOf, point_at, box_point_color, affine_texel};
ghost use Rattle.obj_texels.specs.Code.{StartRanges, PointRanges};

use crate::{Span, Turn};
use memory::{Colors, Oam, read_16};
use obj_sprites::{ATTRS_SIZE, BOX_MAX, ObjAttrs, Sprite, is_inside};
use regs::Reading;
use rgb15::Rgb15;
use signed::{HALF_BIAS, lift_half};

// Where the numbers of matrix 0 lie: each follows a sprite's attributes.
const AFFINE_FILL: usize = 2 * 3;

const PB_OFS: usize = ATTRS_SIZE;

const PC_OFS: usize = 2 * ATTRS_SIZE;

const PD_OFS: usize = 3 * ATTRS_SIZE;

const MATRIX_SIZE: usize = 4 * ATTRS_SIZE;

// What a matrix's numbers are larger by.
const MATRIX_BIAS: usize = HALF_BIAS as usize;

// What a point's coordinates are larger by, and what they are larger by 256 to a pixel.
const OBJ_POINT_BIAS: usize = 0x1_0000;

const START_BIAS: usize = 256 * OBJ_POINT_BIAS;

// A matrix.
#[derive(Clone, Copy)]
struct AffineMatrix {
    pub pa: usize,
    pub pb: usize,
    pub pc: usize,
    pub pd: usize,
}

fn get_affine_matrix(oam: &Oam, affine_index: usize) -> AffineMatrix
    requires { affine_index ≤ 31 }
    ensures { MatrixOf (matrix oam.now affine_index) result }
{
    let offset = AFFINE_FILL + MATRIX_SIZE * affine_index;
    AffineMatrix {
        pa: lift_half(read_16(oam, offset)) as usize,
        pb: lift_half(read_16(oam, offset + PB_OFS)) as usize,
        pc: lift_half(read_16(oam, offset + PC_OFS)) as usize,
        pd: lift_half(read_16(oam, offset + PD_OFS)) as usize,
    }
}

// One coordinate of where column 0 lies: p and q are the matrix's numbers, half_width and half_height the box's middle,
// and row the line's place in the box.
fn turn_start(p: usize, q: usize, half_width: usize, half_height: usize, row: usize) -> usize
    requires { StartRanges p q half_width half_height row }
    ensures { StartOf p q half_width half_height row result }
{
    let added = MATRIX_BIAS * half_width + q * row + MATRIX_BIAS * half_height + START_BIAS;
    let taken = p * half_width + MATRIX_BIAS * row + q * half_height;
    added - taken
}

pub fn turn_line(oam: &Oam, attrs: ObjAttrs, reading: Reading, line: usize) -> Turn
    requires { OnLine reading attrs line }
    ensures { TurnOf (matrix oam.now attrs.affine_index) attrs
        (below reading attrs line -ℤ pos (box_height attrs / 2)) result }
{
    let matrix = get_affine_matrix(oam, attrs.affine_index);
    let half_width = attrs.box_width() / 2;
    let half_height = attrs.box_height() / 2;
    let row = attrs.row(reading, line);
    Turn {
        x: turn_start(matrix.pa, matrix.pb, half_width, half_height, row),
        y: turn_start(matrix.pc, matrix.pd, half_width, half_height, row),
        pa: matrix.pa,
        pc: matrix.pc,
    }
}

// The pixel that a sum lies in: the sum counts from a sprite's middle, 256 to a pixel, and is rounded down.
fn pixel_of(sum: usize, side: usize) -> usize
    requires { (sum < 2 ^ 27) × (side ≤ 64) }
    ensures { result ≡ sum / 256 + side / 2 }
{
    sum / 256 + side / 2
}

// A coordinate of column i of a box.
fn point_at(start: usize, p: usize, i: usize, side: usize) -> usize
    requires { PointRanges start p i side }
    ensures { result ≡ point_at start p i side }
{
    pixel_of(start + p * i - MATRIX_BIAS * i, side)
}

// The colour of column i of an affine sprite's box: nothing is read where its point is outside.
pub fn point_color(colors: Colors, sprite: &Sprite, turn: Turn, i: usize) -> Rgb15
    requires { i ≤ 127 }
    ensures { result.0 ≡ box_point_color sprite.now.reading sprite.now.mapping colors.entry.vram.now
        colors.entry.palette.now sprite.now.attrs turn i }
{
    let width = sprite.attrs.width;
    let height = sprite.attrs.height;
    let x = point_at(turn.x, turn.pa, i, width);
    let y = point_at(turn.y, turn.pc, i, height);
    if is_inside(x, OBJ_POINT_BIAS, width) & is_inside(y, OBJ_POINT_BIAS, height) {
        let sprite_x = x - OBJ_POINT_BIAS;
        let sprite_y = y - OBJ_POINT_BIAS;
        sprite.texel(colors, sprite_x, sprite_y)
    } else {
        Rgb15::TRANSPARENT
    }
}

// The colours of an affine sprite's box on a line, for the columns of a span; the others are transparent.
pub fn affine_row(colors: Colors, sprite: &Sprite, turn: Turn, span: Span) -> [Rgb15; BOX_MAX]
    requires { span.end ≤ 128 }
    ensures { result ≡ tab (λ i. rgb (affine_texel sprite.now.reading sprite.now.mapping colors.entry.vram.now
        colors.entry.palette.now sprite.now.attrs turn span.start span.end i)) 128 }
{
    let mut row = [Rgb15::TRANSPARENT; BOX_MAX];
    for i in span.start..span.end {
        row[i] = point_color(colors, sprite, turn, i);
    }
    row
}
