// Faces of triangles, by their vertices.
ghost use Rattle.std.specs.Prelude.{◌≡◌, ◌≤◌, ◌<◌, length};
ghost use Rattle.ele_faces.specs.Faces.{first_vertex, second_vertex, same_set, turn_of};
ghost use Rattle.ele_faces.specs.Means.{hash_of, Whole};

// The vertex at the lower-numbered corner of a face.
pub fn first_vertex(vs: &[u32], f: usize) -> u32
    requires { Whole vs.now × (f < length vs.now) }
    ensures { result ≡ first_vertex vs.now f }
{
    let t = 3 * (f / 3);
    if f % 3 == 0 { vs[t + 1] } else { vs[t] }
}

// The vertex at its other corner.
fn second_vertex(vs: &[u32], f: usize) -> u32
    requires { Whole vs.now × (f < length vs.now) }
    ensures { result ≡ second_vertex vs.now f }
{
    let t = 3 * (f / 3);
    if f % 3 == 2 { vs[t + 1] } else { vs[t + 2] }
}

pub fn same_set(vs: &[u32], f: usize, g: usize) -> bool
    requires { Whole vs.now × (f < length vs.now) × (g < length vs.now) }
    ensures { result ≡ same_set vs.now f g }
{
    let a = first_vertex(vs, f);
    let b = second_vertex(vs, f);
    let c = first_vertex(vs, g);
    let d = second_vertex(vs, g);
    ((a == c) & (b == d)) | ((a == d) & (b == c))
}

// A hash of a face's vertex set, below m.
pub fn hash_of(vs: &[u32], m: u64, f: usize) -> usize
    requires { Whole vs.now × (f < length vs.now) × (1 ≤ m) }
    ensures { (result ≡ hash_of vs.now m f) × (result < m) }
{
    let a = first_vertex(vs, f) as u64;
    let b = second_vertex(vs, f) as u64;
    ((4294967296 * a.min(b) + a.max(b)) % m) as usize
}

// 0 if the lower-numbered corners of both faces are the same vertex, else 1.
pub fn turn_of(vs: &[u32], f: usize, g: usize) -> u32
    requires { Whole vs.now × (f < length vs.now) × (g < length vs.now) }
    ensures { result ≡ turn_of vs.now f g }
{
    if first_vertex(vs, f) == first_vertex(vs, g) {
        0
    } else {
        1
    }
}
