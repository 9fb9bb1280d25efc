// The mesh of chained faces.
ghost use Rattle.std.specs.Prelude.{◌≡◌, ◌+◌, ◌*◌, ◌≤◌, ◌<◌, length};
ghost use Rattle.encoding.specs.Pieces.{splice};
ghost use Rattle.records.specs.Record.{tree_size};
ghost use Rattle.mesh.specs.Mesh.{mesh_header};
ghost use Rattle.mesh_build.specs.Build.{built_mesh, tree_rows};
ghost use Rattle.ele_faces.specs.Faces.{face_link};
ghost use Rattle.ele_mesh.specs.Means.{AllChained, link_row, AllDrawn};

use crate::chain::Chains;
use ele_faces::face::turn_of;

// The link of face i of triangle t.
fn link_row(chains: Chains, t: usize, i: usize) -> [u32; 3]
    requires { AllChained chains × (3 * t + i < length chains.vs.now) × (i < 3) }
    ensures { result ≡ link_row (face_link chains.entry.vs.now t i) }
{
    let f = 3 * t + i;
    match chains.partner(f) {
        Some(g) => [(g / 3) as u32, (g % 3) as u32, turn_of(chains.vs, f, g)],
        None => [t as u32, i as u32, 0],
    }
}

// The six rows of triangle t; the last three faces aren't there.
fn rows_of(chains: Chains, t: usize) -> [[u32; 3]; 6]
    requires { AllChained chains × (3 * t + 2 < length chains.vs.now) }
    ensures { result ≡ tree_rows 1 (face_link chains.entry.vs.now t) }
{
    let none = [4294967295, 0, 0];
    [
        link_row(chains, t, 0),
        link_row(chains, t, 1),
        link_row(chains, t, 2),
        none,
        none,
        none,
    ]
}

// The whole mesh of n triangles.
pub fn write(chains: Chains, n: u32, out: &mut [u8])
    requires { AllDrawn chains n × (mesh_header + tree_size * n ≤ length out.old) }
    ensures { out.new ≡ splice out.old 0 (built_mesh 1 (face_link chains.entry.vs.now) n) }
{
    mesh_build::write::header(&mut *out, 1, n);
    for t in 0..n {
        mesh_build::write::tree(&mut *out, t, 1, rows_of(chains, t as usize));
    }
}
