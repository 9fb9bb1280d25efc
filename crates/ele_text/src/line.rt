// Lines, as rows of numbers.
ghost use Rattle.std.specs.Prelude.{◌≡◌, ◌≤◌, IfSome};
ghost use Rattle.ele_text.specs.Text.{pieces};
ghost use Rattle.ele_text.specs.Means.{empty_row, with_field, with_fields, row_of};

use crate::field::{read_number, until_either};

// How many fields a line has, at most four, and the last four of their numbers, d the last.
#[derive(Clone, Copy)]
pub struct Row {
    pub count: u32,
    pub a: u32,
    pub b: u32,
    pub c: u32,
    pub d: u32,
}

// The row with one more field, unless that is empty. None where the field is no number, or the fifth.
fn with_field(r: Row, s: &[u8]) -> Option<Row>
    requires { r.count ≤ 4 }
    ensures { (result ≡ with_field (Some r) s.now) × IfSome result (λ q. q.count ≤ 4) }
{
    if s.is_empty() {
        return Some(r);
    }
    if 4 <= r.count {
        return None;
    }
    let d = read_number(s)?;
    Some(Row {
        count: r.count + 1,
        a: r.b,
        b: r.c,
        c: r.d,
        d,
    })
}

// The row of a line without its comment.
fn plain_row(s: &[u8]) -> Option<Row>
    ensures { result ≡ with_fields (Some empty_row) (pieces 32 9 s.now) }
{
    let mut r = Row {
        count: 0,
        a: 0,
        b: 0,
        c: 0,
        d: 0,
    };
    let mut at = 0;
    // field by field: where one ends is found on the way
    loop {
        let e = at + until_either(b' ', b'\t', &s[at..]);
        r = with_field(r, &s[at..e])?;
        if e == s.len() {
            return Some(r);
        }
        at = e + 1;
    }
}

pub fn row_of(line: &[u8]) -> Option<Row>
    ensures { result ≡ row_of line.now }
{
    let e = until_either(b'#', b'#', line);
    plain_row(&line[..e])
}
