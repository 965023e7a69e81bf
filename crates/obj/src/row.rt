// The colours that a sprite's box has on a line.
ghost use Rattle.std.specs.Prelude.{◌+◌, ◌≤◌};

use obj_sprites::BOX_MAX;
use obj_texels::Span;
use rgb15::Rgb15;

// The colours of a box's columns, of which the first is the screen's column left less 272, and the columns of the screen that
// they are put in.
#[derive(Clone, Copy)]
pub struct BoxRow {
    pub colors: [Rgb15; BOX_MAX],
    pub left: usize,
    pub span: Span,
    pub ghost in_screen: { span.end ≤ 240 },
    pub ghost from_left: { left ≤ span.start + 272 },
    pub ghost to_right: { span.end + 272 ≤ left + 128 },
}
