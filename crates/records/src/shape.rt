// Shapes, their dimensions, faces and corners.
ghost use Rattle.std.specs.Prelude.{◌≡◌, ◌≤◌, ◌<◌};
ghost use Rattle.records.specs.Shape.{shape_ok, dimension_of, face_count, faces_in};

pub fn shape_ok(shape: u32) -> bool
    ensures { result ≡ shape_ok shape }
{
    shape <= 5
}

pub fn dimension_of(shape: u32) -> u32
    ensures { result ≡ dimension_of shape }
{
    match shape {
        0..=1 => 2,
        2..=5 => 3,
        _ => 0,
    }
}

pub fn face_count(shape: u32) -> u32
    ensures { (result ≡ face_count shape) × (result ≤ 6) }
{
    match shape {
        0 => 4,
        1 => 3,
        2 => 6,
        3 => 4,
        4 | 5 => 5,
        _ => 0,
    }
}

// F of a dimension.
pub fn faces_in(dimension: u32) -> u32
    ensures { (result ≡ faces_in dimension) × ((0 < result) × (result ≤ 6)) }
{
    if dimension == 2 { 4 } else { 6 }
}
