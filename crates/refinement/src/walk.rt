// Walks over a refinement string in depth-first order.
ghost use Rattle.std.specs.Prelude.{◌≡◌, true, false, ◌+◌, ◌≤◌, IfSome, eqb, length};
ghost use Rattle.refinement.specs.Refinement.{upright as standing, turned, children, refinable};
ghost use Rattle.refinement.specs.Means.Walks.{bit_at, walk_of, element_number, kind_of, going, Came, Passing};
ghost use Rattle.refinement.specs.Means.Trees.{tree_at, tree_of};

// How far a walk has come, and the leaves that it passed; of shapes other than the triangle all are upright.
#[derive(Clone, Copy)]
struct Walk {
    at: usize,
    upright: usize,
    inverted: usize,
}

// A tree's leaves.
#[derive(Clone, Copy)]
pub struct TreeLeaves {
    pub upright: usize,
    pub inverted: usize,
}

// What a walk meets.
#[derive(Clone, Copy, Debug, PartialEq, Eq)]
enum Element {
    Leaf,
    Refined,
}

// How a triangle stands.
#[derive(Clone, Copy, Debug, PartialEq, Eq)]
enum Triangle {
    Upright,
    Inverted,
}

impl Triangle {
    fn turned(self) -> Triangle
        ensures { kind_of result ≡ turned (kind_of self) }
    {
        match self {
            Triangle::Upright => Triangle::Inverted,
            Triangle::Inverted => Triangle::Upright,
        }
    }
}

pub fn shape_ok(shape: u32) -> bool
    ensures { result ≡ refinable shape }
{
    shape < 4
}

// The element at a place that may be refined so deep; None where the string isn't in order.
fn meet(s: &[u8], depth: u32, at: usize) -> Option<Element>
    ensures { element_number result ≡ bit_at depth s.now true at }
{
    if s.len() <= at {
        return None;
    }
    let b = s[at];
    if b == 0 {
        return Some(Element::Leaf);
    }
    if (b == 1) & (0 < depth) {
        return Some(Element::Refined);
    }
    None
}

// Past a triangle that may be refined so deep.
fn past_triangle(s: &[u8], depth: u32, stands: Triangle, w: &mut Walk) -> Option<()>
    requires { Passing s.now (going w.old) }
    ensures { Came s.now (walk_of 1 depth (kind_of stands) s.now (going w.old)) w.new result }
{
    match meet(s, depth, w.at)? {
        Element::Leaf => {
            w.at += 1;
            match stands {
                Triangle::Upright => w.upright += 1,
                Triangle::Inverted => w.inverted += 1,
            }
            Some(())
        }
        Element::Refined => {
            let d = depth - 1;
            w.at += 1;
            for child in [stands, stands, stands.turned(), stands] {
                past_triangle(s, d, child, &mut *w)?;
            }
            Some(())
        }
    }
}

fn children(shape: u32) -> u32
    ensures { result ≡ children shape }
{
    if shape < 2 { 4 } else { 8 }
}

// Past an element of another shape that may be refined so deep. Beside `past_triangle`: the one has no kinds, the other no shapes.
fn past_element(s: &[u8], shape: u32, depth: u32, w: &mut Walk) -> Option<()>
    requires shape_value { eqb shape 1 ≡ false }
    requires passing { Passing s.now (going w.old) }
    ensures { Came s.now (walk_of shape depth standing s.now (going w.old)) w.new result }
{
    match meet(s, depth, w.at)? {
        Element::Leaf => {
            w.at += 1;
            w.upright += 1;
            Some(())
        }
        Element::Refined => {
            let d = depth - 1;
            w.at += 1;
            for _ in 0..children(shape) {
                past_element(s, shape, d, &mut *w)?;
            }
            Some(())
        }
    }
}

// What a walk found, if it came to the string's end.
fn found(n: usize, w: Walk) -> Option<TreeLeaves>
    ensures { result ≡ tree_at n true w.at w.upright w.inverted }
{
    if w.at == n {
        Some(TreeLeaves {
            upright: w.upright,
            inverted: w.inverted,
        })
    } else {
        None
    }
}

// The leaves of a tree, if its string is in order; its root may be refined 20 deep.
pub fn tree(shape: u32, s: &[u8]) -> Option<TreeLeaves>
    ensures { (result ≡ tree_of shape s.now) × IfSome result (λ t. t.upright + t.inverted ≤ length s.now) }
{
    let mut w = Walk {
        at: 0,
        upright: 0,
        inverted: 0,
    };
    if shape == 1 {
        past_triangle(s, 20, Triangle::Upright, &mut w)?;
        return found(s.len(), w);
    }
    past_element(s, shape, 20, &mut w)?;
    found(s.len(), w)
}
