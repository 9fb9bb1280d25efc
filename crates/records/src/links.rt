// The six links of a record, worked on together: six rows of neighbour, face and orientation.
ghost use Rattle.std.specs.Prelude.{◌≡◌, ◌+◌, ◌*◌, ◌≤◌, ◌<◌, length, get_or, set};
ghost use Rattle.encoding.specs.Numbers.{put_u32};
ghost use Rattle.encoding.specs.Pieces.{piece, splice};
ghost use Rattle.records.specs.Record.{core_size};
ghost use Rattle.records.specs.Links.{row_of, rows_of, with_rows, Rows};

use crate::read::{code_of, neighbour_of};

fn row(bs: &[u8], at: usize, face: u32, faces: u32) -> [u32; 3]
    requires { (at + core_size ≤ length bs.now) × ((face < 6) × (0 < faces)) }
    ensures { result ≡ row_of (piece bs.now at core_size) faces face }
{
    let code = code_of(bs, at, face);
    [neighbour_of(bs, at, face), code % faces, code / faces]
}

// The links of the record at byte `at`, by a number of faces F. Six calls and no loop: the rows stay in registers.
pub fn rows_of(bs: &[u8], at: usize, faces: u32) -> [[u32; 3]; 6]
    requires { (at + core_size ≤ length bs.now) × (0 < faces) }
    ensures { result ≡ rows_of (piece bs.now at core_size) faces }
{
    [
        row(bs, at, 0, faces),
        row(bs, at, 1, faces),
        row(bs, at, 2, faces),
        row(bs, at, 3, faces),
        row(bs, at, 4, faces),
        row(bs, at, 5, faces),
    ]
}

fn put_row(bs: &mut [u8], at: usize, face: u32, row: [u32; 3], faces: u32)
    requires { (at + core_size ≤ length bs.old) × ((face < 6) × (get_or row 2 0 * faces + get_or row 1 0 < 256)) }
    ensures { bs.new ≡ set (put_u32 bs.old (at + (8 + 4 * face)) (get_or row 0 0)) (at + (32 + face)) (get_or row 2 0 * faces + get_or row 1 0) }
{
    encoding::bytes::write_u32(&mut *bs, at + (8 + 4 * (face as usize)), row[0]);
    bs[at + (32 + (face as usize))] = (row[2] * faces + row[1]) as u8;
}

// Writes the links into the record at byte `at`. Its other bytes stay.
pub fn put_rows(bs: &mut [u8], at: usize, rows: [[u32; 3]; 6], faces: u32)
    requires { (at + core_size ≤ length bs.old) × Rows rows faces }
    ensures { bs.new ≡ splice bs.old at (with_rows rows faces (piece bs.old at core_size)) }
{
    for face in 0..6 {
        put_row(&mut *bs, at, face, rows[face as usize], faces);
    }
}
