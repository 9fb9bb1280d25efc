// Faces with one hash, chained from the latest back; a place in a chain is a face's number and 1 more, 0 its end, so that it fits an array of u32.
ghost use Rattle.std.specs.Prelude.{◌≡◌, ◌≤◌, ◌<◌, IfSome, leb, length};
ghost use Rattle.encoding.specs.Below.{all_below, count_below};
ghost use Rattle.ele_faces.specs.Faces.{same_set, partner};
ghost use Rattle.ele_faces.specs.Means.{Whole};
ghost use Rattle.ele_mesh.specs.Means.{hashes, Modulus, Room, Ready, AllChained, place_of};

use ele_faces::face::{hash_of, same_set};

// How many pairs of faces have one hash; beyond a limit, some number above it.
fn pairs(vs: &[u32], m: u64, heads: &mut [u32]) -> u64
    requires { Whole vs.now × Modulus m × (hashes ≤ length heads.old) }
{
    heads.fill(0);
    let mut n: u64 = 0;
    for f in 0..vs.len() {
        let h = hash_of(vs, m, f);
        let c = heads[h];
        if 1000000000 < n + (c as u64) {
            return 1000000001;
        }
        heads[h] = c + 1;
        n += c as u64;
    }
    n
}

// The number of hashes to chain the faces by: of 64, one that gives few pairs of faces one hash.
pub fn modulus(vs: &[u32], heads: &mut [u32]) -> u64
    requires { Whole vs.now × (hashes ≤ length heads.old) }
    ensures { Modulus result }
{
    let mut best: u64 = 65521;
    let mut fewest = pairs(vs, best, &mut *heads);
    for j in 1..64 {
        if fewest <= 1572864 {
            return best;
        }
        let m = 65521 - 2 * j;
        let n = pairs(vs, m, &mut *heads);
        if n < fewest {
            fewest = n;
            best = m;
        }
    }
    best
}

// Chains all faces by so many hashes.
pub fn chain(vs: &[u32], m: u64, heads: &mut [u32], links: &mut [u32])
    requires { Whole vs.now × Modulus m × Room heads.old links.old }
    ensures { Ready vs.now m heads.new links.new }
{
    heads.fill(0);
    for f in 0..vs.len() {
        let h = hash_of(vs, m, f);
        links[f] = heads[h];
        heads[h] = (f + 1) as u32;
    }
}

// Faces, by the vertices of their triangles, and their chains: for each hash its latest face, for each face the latest before it with its hash.
#[derive(Clone, Copy)]
pub struct Chains<'a> {
    pub vs: &'a [u32],
    pub modulus: u64,
    pub heads: &'a [u32],
    pub links: &'a [u32],
}

impl<'a> Chains<'a> {
    // How many faces before f have its vertex set.
    fn earlier(self, f: usize) -> u32
        requires { AllChained self × (f < length self.vs.now) }
        ensures { result ≡ count_below f (same_set self.entry.vs.now f) }
    {
        let mut n: u32 = 0;
        let mut at = self.links[f] as usize;
        // along the chain, whose places are no range
        while 0 < at {
            let g = at - 1;
            n += same_set(self.vs, f, g) as u32;
            at = self.links[g] as usize;
        }
        n
    }

    // No vertex set has a third face.
    pub fn edges_ok(self) -> bool
        requires { AllChained self }
        ensures { result ≡ all_below (length self.entry.vs.now) (λ f. leb (count_below f (same_set self.entry.vs.now f)) 1) }
    {
        for f in 0..self.vs.len() {
            if 1 < self.earlier(f) {
                return false;
            }
        }
        true
    }

    // The face that f meets, if any.
    pub fn partner(self, f: usize) -> Option<usize>
        requires { AllChained self × (f < length self.vs.now) }
        ensures { (place_of result ≡ partner self.entry.vs.now f) × IfSome result (λ g. g < length self.entry.vs.now) }
    {
        let mut at = self.heads[hash_of(self.vs, self.modulus, f)] as usize;
        // along the chain, whose places are no range
        while 0 < at {
            let g = at - 1;
            if !(g == f) & same_set(self.vs, f, g) {
                return Some(g);
            }
            at = self.links[g] as usize;
        }
        None
    }
}
