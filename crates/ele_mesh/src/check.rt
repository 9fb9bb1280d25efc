// The checks of an element file.
ghost use Rattle.std.specs.Prelude.{◌≡◌, ◌*◌, ◌≤◌, length};
ghost use Rattle.ele_text.specs.Text.{max_triangles};
ghost use Rattle.ele_faces.specs.Faces.{vertices_differ};
ghost use Rattle.ele_faces.specs.Means.{Whole};
ghost use Rattle.ele_mesh.specs.Means.{Room, Surveyed};

use crate::chain;
use crate::chain::Chains;
use encoding::refusal::Refusal;

// The number of triangles of a text, and by how many hashes their faces are chained.
#[derive(Clone, Copy)]
pub struct Found {
    pub count: u32,
    pub modulus: u64,
}

fn vertices_differ(vs: &[u32]) -> bool
    requires { Whole vs.now }
    ensures { result ≡ vertices_differ vs.now }
{
    for t in 0..vs.len() / 3 {
        let a = vs[3 * t];
        let b = vs[3 * t + 1];
        let c = vs[3 * t + 2];
        if (a == b) | ((a == c) | (b == c)) {
            return false;
        }
    }
    true
}

// Reads the text and chains its faces (27, 28, 29).
pub fn survey(
    text: &[u8],
    vertices: &mut [u32],
    heads: &mut [u32],
    links: &mut [u32],
) -> Result<Found, Refusal>
    requires { (3 * max_triangles ≤ length vertices.old) × Room heads.old links.old }
    ensures { Surveyed text.now vertices.new heads.new links.new result }
{
    let read = ele_text::file::read(text, &mut *vertices);
    let Some(count) = read else {
        return Err(Refusal::Text);
    };
    let vs = &vertices[..3 * (count as usize)];
    if !vertices_differ(vs) {
        return Err(Refusal::Twice);
    }
    let modulus = chain::modulus(vs, &mut *heads);
    chain::chain(vs, modulus, &mut *heads, &mut *links);
    let chains = Chains {
        vs,
        modulus,
        heads: &*heads,
        links: &*links,
    };
    if !chains.edges_ok() {
        return Err(Refusal::Edge);
    }
    Ok(Found { count, modulus })
}
