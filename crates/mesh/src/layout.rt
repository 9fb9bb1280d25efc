// The bytes of a whole mesh: its header, and where the trees' records begin.
ghost use Rattle.std.specs.Prelude.{◌≡◌, ◌+◌, ◌*◌, ◌≤◌, length};
ghost use Rattle.records.specs.Record.{tree_size};
ghost use Rattle.mesh.specs.Mesh.{mesh_header, mesh_dimension, mesh_trees, dimension_ok, header_sound};

pub fn dimension(mesh: &[u8]) -> u32
    requires { mesh_header ≤ length mesh.now }
    ensures { result ≡ mesh_dimension mesh.now }
{
    encoding::bytes::read_u32(mesh, 0)
}

// K.
pub fn trees(mesh: &[u8]) -> u32
    requires { mesh_header ≤ length mesh.now }
    ensures { result ≡ mesh_trees mesh.now }
{
    encoding::bytes::read_u32(mesh, 4)
}

// Where the record of tree k begins.
pub fn tree_at(k: u32) -> usize
    ensures { result ≡ mesh_header + tree_size * k }
{
    8 + 64 * (k as usize)
}

pub fn dimension_ok(dimension: u32) -> bool
    ensures { result ≡ dimension_ok dimension }
{
    (dimension == 2) | (dimension == 3)
}

pub fn header_sound(mesh: &[u8]) -> bool
    ensures { result ≡ header_sound mesh.now }
{
    if mesh.len() < 8 {
        return false;
    }
    let trees = trees(mesh);
    dimension_ok(dimension(mesh))
        & offsets::table::tree_count_ok(trees as u64)
        & (mesh.len() == tree_at(trees))
}
