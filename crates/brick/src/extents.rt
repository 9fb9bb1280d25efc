// The limits of the extents, and the length of a brick within them.
ghost use Rattle.std.specs.Prelude.{◌≡◌, ◌+◌, ◌*◌, true};
ghost use Rattle.records.specs.Record.{tree_size};
ghost use Rattle.mesh.specs.Mesh.{mesh_header};
ghost use Rattle.brick.specs.Calls.{extent_ok, extents_ok};

fn extent_ok(extent: u32) -> bool
    ensures { result ≡ extent_ok extent }
{
    (1..=64).contains(&extent)
}

pub fn extents_ok(a: u32, b: u32, c: u32) -> bool
    ensures { result ≡ extents_ok a b c }
{
    extent_ok(a) & extent_ok(b) & extent_ok(c)
}

// How many trees a brick has.
pub fn tree_count(a: u32, b: u32, c: u32) -> u32
    requires { extents_ok a b c ≡ true }
    ensures { result ≡ a * b * c }
{
    a * b * c
}

pub fn mesh_length(a: u32, b: u32, c: u32) -> u64
    requires { extents_ok a b c ≡ true }
    ensures { result ≡ mesh_header + tree_size * (a * b * c) }
{
    8 + 64 * (tree_count(a, b, c) as u64)
}
