// A whole file, read line by line.
ghost use Rattle.std.specs.Prelude.{◌≡◌, ◌*◌, ◌≤◌, length};
ghost use Rattle.ele_text.specs.Text.{max_triangles};
ghost use Rattle.ele_text.specs.Means.{is_head, is_triangle, read_of, Within, Taken, TextRead};

use crate::field::until_either;
use crate::line::{Row, row_of};

// How many rows were read, the number of triangles that the first says, and the number that the next triangle has.
#[derive(Clone, Copy)]
struct File {
    rows: u32,
    count: u32,
    next: u32,
}

fn is_head(r: Row) -> bool
    ensures { result ≡ is_head r }
{
    (r.count == 3) & ((r.c == 3) & (r.d == 0)) & ((1 <= r.b) & (r.b <= 65536))
}

fn is_triangle(f: File, r: Row) -> bool
    ensures { result ≡ is_triangle f.rows f.count f.next r }
{
    ((r.count == 4) & (f.rows <= f.count)) & ((r.a == f.next) | ((f.rows == 1) & (r.a == 1)))
}

// Takes a row in: the first, or a triangle, whose vertices go into the array. None where it is neither.
fn with_row(f: File, r: Row, vertices: &mut [u32]) -> Option<File>
    requires { Within f × (3 * max_triangles ≤ length vertices.old) }
    ensures { Taken (read_of f vertices.old) r vertices.new result }
{
    if r.count == 0 {
        return Some(f);
    }
    if f.rows == 0 {
        if !is_head(r) {
            return None;
        }
        return Some(File {
            rows: 1,
            count: r.b,
            next: 0,
        });
    }
    if !is_triangle(f, r) {
        return None;
    }
    let i = 3 * ((f.rows - 1) as usize);
    vertices[i] = r.b;
    vertices[i + 1] = r.c;
    vertices[i + 2] = r.d;
    Some(File {
        rows: f.rows + 1,
        next: r.a + 1,
        ..f
    })
}

// The number of triangles of a text in the form of an element file; their vertices are the first in the array.
pub fn read(text: &[u8], vertices: &mut [u32]) -> Option<u32>
    requires { 3 * max_triangles ≤ length vertices.old }
    ensures { TextRead text.now vertices.new result }
{
    let mut f = File {
        rows: 0,
        count: 0,
        next: 0,
    };
    let mut at = 0;
    // line by line: where one ends is found on the way
    loop {
        let e = at + until_either(b'\n', b'\n', &text[at..]);
        if e == text.len() {
            if (at == e) & (f.rows == f.count + 1) {
                return Some(f.count);
            }
            return None;
        }
        let r = row_of(&text[at..e])?;
        f = with_row(f, r, &mut *vertices)?;
        at = e + 1;
    }
}
