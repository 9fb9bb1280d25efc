// Records: shapes, fields, form and links. A record's 40 core bytes are read in place, from byte `at` of the lent bytes.
#![tactic(auto)]

pub mod form;
pub mod index;
pub mod links;
pub mod read;
pub mod shape;

ghost use Rattle.std.specs.Prelude.{◌≡◌};
ghost use Rattle.records.specs.Shape.{corners as corners_at};

// The corners of a face, 0 for any other shape or face (no refusal). A solid is a polygon of `base` corners, drawn out to a second one or to a point.
pub fn corners(shape: u32, face: u32) -> u32
    ensures { result ≡ corners_at shape face }
{
    if 5 < shape {
        return 0;
    }
    if shape <= 1 {
        if face < 4 - shape {
            return 2;
        }
        return 0;
    }
    let base = 3 + shape % 3 / 2;
    let point = shape % 2;
    if face < base {
        return 4 - point;
    }
    if face < base + (2 - point) {
        return base;
    }
    0
}
