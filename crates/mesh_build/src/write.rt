// The header and the tree records of a mesh of one shape. Whoever has links calls `header` and then, for each tree in order, `tree`.
ghost use Rattle.std.specs.Prelude.{◌≡◌, [], ◌∷◌, ◌++◌, ◌+◌, ◌*◌, ◌≤◌, ◌<◌, length, get_or};
ghost use Rattle.encoding.specs.Numbers.{le_bytes};
ghost use Rattle.encoding.specs.Pieces.{splice};
ghost use Rattle.records.specs.Shape.{dimension_of, faces_in};
ghost use Rattle.records.specs.Record.{tree_size};
ghost use Rattle.records.specs.Links.{code_bytes, Rows};
ghost use Rattle.mesh.specs.Mesh.{mesh_header};
ghost use Rattle.mesh_build.specs.Build.{new_header, new_tree};

use encoding::record::{Words40, Words64};

pub fn header(out: &mut [u8], shape: u32, trees: u32)
    requires { mesh_header ≤ length out.old }
    ensures { out.new ≡ splice out.old 0 (new_header shape trees) }
{
    encoding::bytes::write_u32(&mut *out, 0, records::shape::dimension_of(shape));
    encoding::bytes::write_u32(&mut *out, 4, trees);
}

// Two numbers as a word, the first in its low half.
fn pair(low: u32, high: u32) -> u64
    ensures { le_bytes 8 result ≡ le_bytes 4 low ++ le_bytes 4 high }
{
    (low as u64) + ((high as u64) << 32)
}

// The face code of a row.
fn code(row: [u32; 3], faces: u32) -> u8
    requires { get_or row 2 0 * faces + get_or row 1 0 < 256 }
    ensures { result ≡ get_or row 2 0 * faces + get_or row 1 0 }
{
    (row[2] * faces + row[1]) as u8
}

// The six face codes as a word, its high two bytes the region 0.
fn codes(rows: [[u32; 3]; 6], faces: u32) -> u64
    requires { Rows rows faces }
    ensures { le_bytes 8 result ≡ code_bytes rows faces 6 ++ (0 ∷ 0 ∷ []) }
{
    u64::from_le_bytes([
        code(rows[0], faces),
        code(rows[1], faces),
        code(rows[2], faces),
        code(rows[3], faces),
        code(rows[4], faces),
        code(rows[5], faces),
        0,
        0,
    ])
}

// Writes the record of tree k by eight stores, in ascending order.
pub fn tree(out: &mut [u8], k: u32, shape: u32, rows: [[u32; 3]; 6])
    requires { (mesh_header + tree_size * k + tree_size ≤ length out.old) × ((shape < 256) × Rows rows (faces_in (dimension_of shape))) }
    ensures { out.new ≡ splice out.old (mesh_header + tree_size * k) (new_tree k shape rows) }
{
    let faces = records::shape::faces_in(records::shape::dimension_of(shape));
    let core = Words40 {
        w0: pair(k, shape),
        w1: pair(rows[0][0], rows[1][0]),
        w2: pair(rows[2][0], rows[3][0]),
        w3: pair(rows[4][0], rows[5][0]),
        w4: codes(rows, faces),
    };
    encoding::record::store64(
        &mut *out,
        mesh::layout::tree_at(k),
        Words64 {
            core,
            w5: 0,
            w6: 0,
            w7: 0,
        },
    );
}
