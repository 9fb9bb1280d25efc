// The trees of a brick, written in order. The coordinates go with the number, so that nothing is divided.
ghost use Rattle.std.specs.Prelude.{◌≡◌, ◌+◌, ◌-◌, ◌*◌, ◌≤◌, ◌<◌, ◌^◌, length};
ghost use Rattle.encoding.specs.Pieces.{splice};
ghost use Rattle.mesh_build.specs.Build.{tree_rows};
ghost use Rattle.brick.specs.Brick.{hexahedron, brick_link, brick_mesh};
ghost use Rattle.brick.specs.Means.{Stands, OnAxis, Room, low_row, high_row};

// The coordinates of a tree.
#[derive(Clone, Copy)]
struct Place {
    x: u32,
    y: u32,
    z: u32,
}

// Where the tree after tree k stands.
fn next(at: Place, a: u32, b: u32, k: u32) -> Place
    requires { Stands a b k at.x at.y at.z × (k < 262144) }
    ensures { Stands a b (k + 1) result.x result.y result.z }
{
    if at.x + 1 < a {
        return Place { x: at.x + 1, ..at };
    }
    if at.y + 1 < b {
        return Place {
            x: 0,
            y: at.y + 1,
            ..at
        };
    }
    Place {
        x: 0,
        y: 0,
        z: at.z + 1,
    }
}

// The row of the low face of tree k on an axis. Low and high faces go in opposite directions and are no one rule.
fn low(k: u32, x: u32, extent: u32, stride: u32, periodic: bool, face: u32) -> [u32; 3]
    requires { OnAxis k x extent stride × (face < 6) }
    ensures { result ≡ low_row k x extent stride periodic face }
{
    if x != 0 {
        return [k - stride, face + 1, 0];
    }
    if periodic {
        return [k + (extent - 1) * stride, face + 1, 0];
    }
    [k, face, 0]
}

// And of the high face.
fn high(k: u32, x: u32, extent: u32, stride: u32, periodic: bool, face: u32) -> [u32; 3]
    requires { OnAxis k x extent stride × ((0 < face) × (face < 6)) }
    ensures { result ≡ high_row k x extent stride periodic face }
{
    if x + 1 != extent {
        return [k + stride, face - 1, 0];
    }
    if periodic {
        return [k - (extent - 1) * stride, face - 1, 0];
    }
    [k, face, 0]
}

pub fn write_trees(out: &mut [u8], a: u32, b: u32, c: u32, p: bool, q: bool, r: bool)
    requires { Room a b c out.old }
    ensures { out.new ≡ splice out.old 0 (brick_mesh a b c p q r) }
{
    let trees = crate::extents::tree_count(a, b, c);
    mesh_build::write::header(&mut *out, 2, trees);
    let layer = a * b;
    let mut at = Place { x: 0, y: 0, z: 0 };
    for k in 0..trees {
        let rows = [
            low(k, at.x, a, 1, p, 0),
            high(k, at.x, a, 1, p, 1),
            low(k, at.y, b, a, q, 2),
            high(k, at.y, b, a, q, 3),
            low(k, at.z, c, layer, r, 4),
            high(k, at.z, c, layer, r, 5),
        ];
        mesh_build::write::tree(&mut *out, k, 2, rows);
        at = next(at, a, b, k);
    }
}
