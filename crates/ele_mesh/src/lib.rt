// Import of Triangle's element files.
#![tactic(auto)]

ghost use Rattle.std.specs.Prelude.{◌≡◌};
ghost use Rattle.encoding.specs.Refusals.{length_of};
ghost use Rattle.ele_mesh.specs.Calls.{triangle_length, import_triangle};

use chain::Chains;
use check::survey;
use encoding::refusal::Refusal;

mod chain;
mod check;
mod write;

// As many faces as a text has at most, and as many hashes.
const FACES: usize = 196608;

const HASHES: usize = 65521;

// How long the mesh of an element file is (27, 28, 29).
pub fn triangle_length(text: &[u8]) -> Result<u64, Refusal>
    ensures { length_of result ≡ triangle_length text.now }
{
    let mut vertices = [0; FACES];
    let mut heads = [0; HASHES];
    let mut links = [0; FACES];
    let s = survey(text, &mut vertices, &mut heads, &mut links)?;
    Ok(8 + 64 * (s.count as u64))
}

// Write the mesh of an element file (27, 28, 29, 22).
pub fn import_triangle(text: &[u8], out: &mut [u8]) -> Result<u64, Refusal>
    ensures { (length_of result, out.new) ≡ import_triangle text.now out.old }
{
    let mut vertices = [0; FACES];
    let mut heads = [0; HASHES];
    let mut links = [0; FACES];
    let s = survey(text, &mut vertices, &mut heads, &mut links)?;
    let n = 8 + 64 * (s.count as usize);
    if out.len() < n {
        return Err(Refusal::Buffer);
    }
    let chains = Chains {
        vs: &vertices[..3 * (s.count as usize)],
        modulus: s.modulus,
        heads: &heads,
        links: &links,
    };
    write::write(chains, s.count, &mut *out);
    Ok(n as u64)
}
