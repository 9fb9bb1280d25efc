// Runs the calls that standard input lists, a line each, and writes each line with its answers behind it.
// A capital letter names a register, and the number behind it is put there; each further number, after a space, goes to the next register.
// Q is the call, A and B are the place and the length of its first slice in the memory, C and D of its second, E and F of its third.
// X and Y are numbers. The list from Z on has the call's last number: one call for each.
// O is the place in the memory that gets what was written, P the room for it. A line without Q is a title, or a text for the plan.
#![tactic(auto)]

ghost use Rattle.std.specs.Prelude.{◌≡◌, ◌≤◌, length, IfOk};

use encoding::answer::Length;
use encoding::refusal::{Refusal, number_of};
use lookup::Found;
use offsets::Range;
use part_neighbour::link::NeighbourAnswer;
use pattern::holder::sender_answer;
use pattern::set::ranks_answer;
use records::index::{GlobalIndex, LocalIndex};
use std::io;
use std::io::{BufWriter, Read, Write};

// ---- answers

fn text(to: &mut impl Write, t: &[u8]) -> io::Result<()> {
    to.write_all(t)
}

fn word(to: &mut impl Write, n: u64) -> io::Result<()> {
    write!(to, " {n}")
}

fn word32(to: &mut impl Write, n: u32) -> io::Result<()> {
    word(to, n as u64)
}

// A number of 64 bits with its sign.
fn signed(to: &mut impl Write, n: u64) -> io::Result<()> {
    if n < 9223372036854775808 {
        return word(to, n);
    }
    let size = std::num::wrapping_sub_u64(0, n);
    write!(to, " -{size}")
}

// A rank below 3, or −1 or −2, which stand for none.
fn show_rank(to: &mut impl Write, n: i32) -> io::Result<()> {
    let shown = if (-1 <= n) & (n <= 2) { n } else { -2 };
    write!(to, " {shown}")
}

fn refusal(to: &mut impl Write, n: u32) -> io::Result<()> {
    text(to, b" =")?;
    word32(to, n)
}

fn show_length(to: &mut impl Write, l: Length) -> io::Result<u64> {
    refusal(to, l.refusal)?;
    word(to, l.length)?;
    Ok(l.length)
}

fn show_range(to: &mut impl Write, r: Range) -> io::Result<()> {
    refusal(to, r.refusal)?;
    word32(to, r.first)?;
    word32(to, r.count)
}

// The length of a record and its number.
fn show_record(to: &mut impl Write, r: &[u8]) -> io::Result<()> {
    text(to, b" =")?;
    word(to, r.len() as u64)?;
    if 4 <= r.len() {
        word32(to, encoding::bytes::read_u32(r, 0))?;
    }
    Ok(())
}

// ---- bytes

fn input_buffer() -> [u8; 65536]
    ensures { 65536 ≡ length result }
{
    [0; 65536]
}

fn blank() -> [u8; 32768]
    ensures { 32768 ≡ length result }
{
    [170; 32768]
}

fn registers() -> [u64; 96]
    ensures { 96 ≡ length result }
{
    [0; 96]
}

fn numbers() -> [u32; 1024]
    ensures { 1024 ≡ length result }
{
    [9; 1024]
}

// So many bytes from a place on, none where they aren't there.
fn piece<'a>(bs: &'a [u8], at: u64, n: u64) -> &'a [u8] {
    let start = at as usize;
    let count = n as usize;
    if bs.len() < start {
        return &bs[..0];
    }
    if bs.len() - start < count {
        return &bs[..0];
    }
    &bs[start..start + count]
}

// Puts bytes at a place, if there is room.
fn store(bs: &mut [u8], at: u64, from: &[u8]) {
    let start = at as usize;
    if bs.len() < start {
        return;
    }
    if bs.len() - start < from.len() {
        return;
    }
    bs[start..start + from.len()].copy_from_slice(from);
}

// The place behind the last byte that isn't 170.
fn written(bs: &[u8]) -> usize {
    bs.iter()
        .rposition(|b| *b != 170)
        .map_or(0, |last| last + 1)
}

// The bytes as numbers of 32 bits, and how many there are.
fn read_list(bs: &[u8], xs: &mut [u32]) -> usize
    ensures { result ≤ length xs.new }
{
    let count = xs.len().min(bs.len() / 4);
    for i in 0..count {
        xs[i] = encoding::bytes::read_u32(bs, 4 * i);
    }
    count
}

fn show_list(to: &mut impl Write, xs: &[u32]) -> io::Result<()> {
    for x in xs {
        word32(to, *x)?;
    }
    Ok(())
}

// The numbers in some bytes, of eight bytes each or of four.
fn show_numbers(to: &mut impl Write, bs: &[u8], wide: bool) -> io::Result<()> {
    for i in 0..bs.len() / 8 {
        if wide {
            signed(to, encoding::bytes::read_u64(bs, 8 * i))?;
        } else {
            word32(to, encoding::bytes::read_u32(bs, 8 * i))?;
            word32(to, encoding::bytes::read_u32(bs, 8 * i + 4))?;
        }
    }
    Ok(())
}

// ---- calls

// Puts number k of a list at its place, and answers the length of the list: of numbers of eight bytes, or of four, where the last may be cut. What is written behind it isn't kept.
fn load(size: u32, z: u64, k: usize, out: &mut [u8]) -> u64 {
    let at = 8 * (k % 128);
    if out.len() < at + 8 {
        return 0;
    }
    if size == 8 {
        encoding::bytes::write_u64(out, at, z);
        return at as u64 + 8;
    }
    encoding::bytes::write_u64(out, at / 2, z);
    at as u64 / 2 + size as u64
}

fn bytes_call(
    to: &mut impl Write,
    op: u64,
    a: &[u8],
    x: u32,
    z: u64,
    k: usize,
    out: &mut [u8],
) -> io::Result<u64> {
    match op {
        0 => Ok(0),
        1 => Ok(load(x, z, k, out)),
        2 => {
            store(out, 0, a);
            Ok(a.len() as u64)
        }
        _ => {
            text(to, b" =")?;
            show_numbers(to, a, op == 3)?;
            Ok(0)
        }
    }
}

fn show_sender(to: &mut impl Write, s: pattern::SenderAnswer) -> io::Result<()> {
    refusal(to, s.refusal)?;
    show_rank(to, s.sender)
}

fn show_ranks(to: &mut impl Write, r: pattern::Ranks, xs: &[u32]) -> io::Result<()> {
    refusal(to, r.refusal)?;
    word32(to, r.count)?;
    show_rank(to, r.smallest)?;
    show_rank(to, r.largest)?;
    show_list(to, xs)
}

// The first set or the second, in the first places of a list.
fn set_in(
    to: &mut impl Write,
    op: u64,
    a: &[u8],
    b: &[u8],
    x: u32,
    room: usize,
    xs: &mut [u32],
) -> io::Result<()> {
    if room <= xs.len() {
        if op == 24 {
            let answer = pattern::send_set(a, b, x, &mut xs[..room]);
            show_ranks(to, ranks_answer(answer, &xs[..room]), xs)?;
        } else {
            let answer = pattern::receive_set(a, b, x, &mut xs[..room]);
            show_ranks(to, ranks_answer(answer, &xs[..room]), xs)?;
        }
    }
    Ok(())
}

fn set_call(to: &mut impl Write, op: u64, a: &[u8], b: &[u8], x: u32, z: u32) -> io::Result<()> {
    let mut xs = [9u32; 4];
    set_in(to, op, a, b, x, z as usize, &mut xs)
}

fn show_neighbour(to: &mut impl Write, n: NeighbourAnswer) -> io::Result<()> {
    refusal(to, n.refusal)?;
    word32(to, n.shape)?;
    word32(to, n.kind)?;
    word32(to, n.index)?;
    word32(to, n.face)?;
    word32(to, n.orientation)
}

fn show_found(to: &mut impl Write, f: Found) -> io::Result<()> {
    refusal(to, f.which)?;
    word(to, f.offset)
}

// The first record that a reader over the message hands out.
fn first_record<'a>(message: &'a [u8]) -> &'a [u8] {
    match message_reader::begin(message) {
        Ok(begun) => message_reader::next(begun.reader).piece,
        Err(_) => &message[..0],
    }
}

fn read_call(to: &mut impl Write, message: &[u8], place: u64) -> io::Result<()> {
    show_record(to, message_reader::place::read(message, place))?;
    let f = message_reader::place::after(message, place);
    word(to, f.remain)?;
    word(to, f.at)
}

// Calls that write nothing. Both slices have one lifetime, since `lookup` lends back a part of either.
fn ask<'a>(
    to: &mut impl Write,
    op: u64,
    a: &'a [u8],
    b: &'a [u8],
    x: u32,
    y: u32,
    z: u32,
    place: u64,
) -> io::Result<()> {
    match op {
        10 => refusal(to, number_of(offsets::check_table(a))),
        11 => show_range(to, Range::from(offsets::table_range(a, z))),
        12 => show_length(to, Length::from(offsets_write::table_length(z))).map(|_| ()),
        13 => show_sender(to, sender_answer(pattern::sender_of(a, b, z, x))),
        14 => show_range(to, Range::from(pattern::trees_sent(a, b, x, z))),
        15 => refusal(to, number_of(mesh::check_mesh(a))),
        16 => show_length(to, Length::from(part_cut::part_length(a, b, z))).map(|_| ()),
        17 => refusal(to, number_of(part_check::check_part(a, b, z))),
        18 => show_neighbour(
            to,
            NeighbourAnswer::from(part_neighbour::neighbour_of(a, b, x, LocalIndex(y), z)),
        ),
        19 => show_found(to, Found::from(lookup::find_record(a, b, GlobalIndex(z)))),
        20 => show_length(to, Length::from(message::begin_reading(a))).map(|_| ()),
        21 => show_record(to, message::place::record_at(a, place)),
        22 => read_call(to, a, place),
        23 => show_record(to, lookup::lookup(a, b, GlobalIndex(z)).unwrap_or(&a[..0])),
        26 => show_record(to, first_record(a)),
        _ => set_call(to, op, a, b, x, z),
    }
}

// A table from leaf counts, or from first trees and counts.
fn table_call(op: u64, a: &[u8], b: &[u8], z: u32, out: &mut [u8]) -> Result<u64, Refusal> {
    let mut xs = numbers();
    let m = read_list(a, &mut xs);
    if op == 50 {
        return leaves::table_from_leaves(z, &xs[..m], out);
    }
    let mut ys = numbers();
    let n = read_list(b, &mut ys);
    offsets_write::write_table(z, &xs[..m], &ys[..n], out)
}

// Calls that write.
fn make(op: u64, a: &[u8], b: &[u8], c: &[u8], x: u32, y: u32, z: u32, out: &mut [u8]) -> Length {
    match op {
        50 | 51 => Length::from(table_call(op, a, b, z, out)),
        52 => Length::from(part_cut::cut_part(a, b, z, out)),
        53 => Length::from(message_build::build_message(a, b, c, x, y, z, out)),
        54 => Length::from(area_open::open_area(a, b, x, y, z, out)),
        55 => {
            store(&mut *out, 0, a);
            Length {
                refusal: number_of(deliver::deliver(out, b)),
                length: a.len() as u64,
            }
        }
        56 => Length::from(close::close_area(a, out)),
        57 => Length::from(restart::pad_table(a, z, out)),
        58 => Length::from(restart::empty_part(a, x, z, out)),
        _ => Length::from(restart::relabel_part(a, b, x, c, z, out)),
    }
}

// The plan of the text of so many bytes that begins x bytes in front of the line.
fn plan_call(to: &mut impl Write, past: &[u8], x: u64, z: u64, out: &mut [u8]) -> io::Result<u64> {
    let start = std::num::wrapping_sub_u64(past.len() as u64, x);
    let n = show_length(
        to,
        Length::from(plan_text::plan_output(piece(past, start, z), &mut *out)),
    )?;
    text(to, b"\n")?;
    text(to, piece(out, 0, n))?;
    Ok(n)
}

// ---- lines

// Call k of a line.
fn call(
    to: &mut impl Write,
    w: &[u64; 96],
    k: usize,
    past: &[u8],
    memory: &[u8],
    out: &mut [u8],
) -> io::Result<u64> {
    if 70 <= k {
        return Ok(0);
    }
    let op = w[17];
    let a = piece(memory, w[1], w[2]);
    let b = piece(memory, w[3], w[4]);
    let x = (w[24] % 4294967296) as u32;
    let y = (w[25] % 4294967296) as u32;
    let wide = w[26 + k];
    let z = (wide % 4294967296) as u32;
    if op < 10 {
        return bytes_call(to, op, a, x, wide, k, out);
    }
    if op < 40 {
        ask(to, op, a, b, x, y, z, wide)?;
        return Ok(0);
    }
    if op < 50 {
        return plan_call(to, past, x as u64, wide, out);
    }
    show_length(to, make(op, a, b, piece(memory, w[5], w[6]), x, y, z, out))
}

// The calls of a line, in the room for what they write. Answers the length of what the last wrote.
fn calls(
    to: &mut impl Write,
    w: &[u64; 96],
    last: usize,
    past: &[u8],
    memory: &[u8],
    out: &mut [u8],
) -> io::Result<u64> {
    let room = w[16] as usize;
    if out.len() < room {
        return Ok(0);
    }
    let mut n = call(to, w, 0, past, memory, &mut out[..room])?;
    for k in 26..last {
        n = call(to, w, k - 25, past, memory, &mut out[..room])?;
    }
    Ok(n)
}

// Runs a line and puts what was written in the memory. The room is full of bytes 170 before; the place behind the last that changed is shown.
fn run(
    to: &mut impl Write,
    w: &[u64; 96],
    last: usize,
    past: &[u8],
    memory: &mut [u8],
) -> io::Result<()> {
    let mut out = blank();
    let n = calls(to, w, last, past, &*memory, &mut out)?;
    let end = written(&out);
    if 0 < end {
        text(to, b" wrote")?;
        word(to, end as u64)?;
        store(memory, w[15], piece(&out, 0, n));
    }
    Ok(())
}

// The register that the next digit goes to, the digits so far, and 0, or all ones behind a minus.
#[derive(Clone, Copy)]
struct Scan {
    at: usize,
    digits: u64,
    mask: u64,
}

fn read_char(w: &mut [u64; 96], s: Scan, c: u8) -> Scan {
    if c == 45 {
        return Scan {
            at: s.at,
            digits: 0,
            mask: 18446744073709551615,
        };
    }
    if (c == 32) | (c == 35) {
        return Scan {
            at: s.at % 1048576 + 1,
            digits: 0,
            mask: 0,
        };
    }
    if (65 <= c) & (c < 91) & (s.at <= 96) {
        return Scan {
            at: (c % 32) as usize,
            digits: 0,
            mask: 0,
        };
    }
    if (48 <= c) & (c < 58) {
        let digits = s.digits % 1152921504606846976 * 10 + (c % 16) as u64;
        let at = s.at;
        if at < 96 {
            w[at] = std::num::wrapping_sub_u64(digits ^ s.mask, s.mask);
        }
        return Scan {
            at: s.at,
            digits,
            mask: s.mask,
        };
    }
    s
}

// Each line is written, from the line feed in front of it on, and then run.
fn run_all(to: &mut impl Write, input: &[u8], memory: &mut [u8]) -> io::Result<()> {
    let mut w = registers();
    let mut s = Scan {
        at: 96,
        digits: 0,
        mask: 0,
    };
    let mut begin = 0;
    for here in 0..input.len() {
        let c = input[here];
        if c == 10 {
            text(to, &input[begin..here])?;
            run(to, &w, s.at, &input[..begin + 1], memory)?;
            w = registers();
            s = Scan {
                at: 96,
                digits: 0,
                mask: 0,
            };
            begin = here;
        } else {
            s = read_char(&mut w, s, c);
        }
    }
    text(to, b"\n")
}

// Reads until the buffer is full or the input ends, and answers how many bytes it put at the buffer's beginning.
fn read_full(reader: &mut impl Read, input: &mut [u8]) -> io::Result<usize>
    ensures { IfOk result (λ n. n ≤ length input.new) }
{
    let mut done = 0;
    // as much at a time as the reader gives; the program plan has the same function, since no crate below both reads input
    while done < input.len() {
        let n = reader.read(&mut input[done..])?;
        if n == 0 {
            break;
        }
        done += n;
    }
    Ok(done)
}

fn main(rt: HostRuntime) -> io::Result<()> {
    let mut input = input_buffer();
    let n = read_full(&mut rt.reader(), &mut input)?;
    let mut to = BufWriter::new(rt.alloc(), io::writer(&rt))?;
    let mut memory = blank();
    run_all(&mut to, &input[..n], &mut memory)?;
    to.flush()
}
