// The colours of a normal sprite's row, by whole tiles.
ghost use Rattle.std.specs.Prelude.{◌≡◌, ◌+◌, ◌*◌, ◌/◌, ◌%◌, ◌<◌};
ghost use Rattle.rgb15.specs.Colour.{rgb};
ghost use Rattle.rows.specs.Tab.{tab};
ghost use Rattle.tiles.specs.Flip.{flip};
ghost use Rattle.obj_sprites.specs.Tiles.{texel};
ghost use Rattle.obj_texels.specs.Code.{row_texel};

use memory::Colors;
use obj_sprites::{BOX_MAX, PALRAM_OFS_FG, Sprite};
use rgb15::Rgb15;
use tiles::{TILE_SIDE, flip};

// The eight colours of row y of a normal sprite's tile t, counted from the left as shown.
fn shown_tile(colors: Colors, sprite: &Sprite, y: usize, t: usize) -> [Rgb15; TILE_SIDE]
    requires { (y < sprite.now.attrs.height) × (sprite.now.attrs.width % 8 ≡ 0) × (t < sprite.now.attrs.width / 8) }
    ensures { result ≡ tab (λ k. rgb (texel sprite.now.reading sprite.now.mapping colors.entry.vram.now
        colors.entry.palette.now sprite.now.attrs (flip sprite.now.attrs.h_flip sprite.now.attrs.width (8 * t + k)) y)) 8 }
{
    let attrs = sprite.attrs;
    let shown = flip(attrs.h_flip, attrs.width / TILE_SIDE, t);
    let tile = sprite.tile(TILE_SIDE * shown, y);
    tile.row::<PALRAM_OFS_FG>(colors, y % TILE_SIDE, attrs.h_flip)
}

// The colours of row y of a normal sprite, column by column as shown. It goes by whole tiles, which is twice as quick as a
// texel for each column; columns past the sprite's width are transparent.
pub fn texel_row(colors: Colors, sprite: &Sprite, y: usize) -> [Rgb15; BOX_MAX]
    requires { (y < sprite.now.attrs.height) × (sprite.now.attrs.width % 8 ≡ 0) }
    ensures { result ≡ tab (λ x. rgb (row_texel sprite.now.reading sprite.now.mapping colors.entry.vram.now
        colors.entry.palette.now sprite.now.attrs y x)) 128 }
{
    let mut row = [Rgb15::TRANSPARENT; BOX_MAX];
    for t in 0..sprite.attrs.width / TILE_SIDE {
        let i = TILE_SIDE * t;
        let tile = shown_tile(colors, sprite, y, t);
        [
            row[i],
            row[i + 1],
            row[i + 2],
            row[i + 3],
            row[i + 4],
            row[i + 5],
            row[i + 6],
            row[i + 7],
        ] = tile;
    }
    row
}
