// The input's three lines, read into two tables.
ghost use Rattle.std.specs.Prelude.{◌≡◌, ◌≤◌, ◌<◌, ◌-◌, length, get_or};
ghost use Rattle.plan_read.specs.Means.{read_list, stored, place_behind, ListRead, InputRead};

use crate::number::{byte_at, read_entry, read_number};

// A list that was read: how many entries it has, and the place behind its LF.
#[derive(Clone, Copy)]
struct Counted {
    count: usize,
    next: usize,
}

// The place behind a word that stands at a place. The last byte of the word isn't 0.
fn behind(text: &[u8], at: usize, word: &[u8]) -> Option<usize>
    requires { 0 < get_or word.now (length word.now - 1) 0 }
    ensures { result ≡ place_behind text.now at word.now }
{
    if at <= text.len() && text[at..].starts_with(word) {
        Some(at + word.len())
    } else {
        None
    }
}

// Entry i of a table, where there is room for it.
fn store(table: &mut [u8], i: usize, v: u64)
    ensures { table.new ≡ stored table.old i v }
{
    if i < table.len() / 8 {
        encoding::bytes::write_u64(&mut *table, 8 * i, v);
    }
}

// A list of entries, with commas between them and LF behind the last. Entries for which the table has no room are counted.
fn read_list(text: &[u8], at: usize, table: &mut [u8]) -> Option<Counted>
    ensures { ListRead text.now (read_list (length text.now) text.now at) table.old table.new result }
{
    let mut place = at;
    let mut count: usize = 0;
    // number by number: where one ends is found on the way
    loop {
        let n = read_entry(text, place);
        let v = n.value?;
        store(&mut *table, count, v);
        count += 1;
        let b = byte_at(text, n.next);
        if b == b'\n' {
            return Some(Counted {
                count,
                next: n.next + 1,
            });
        }
        if b != b',' {
            return None;
        }
        place = n.next + 1;
    }
}

// P, where the whole input is in form: three lines, with as many entries as ranks + 1. A table then begins with the entries
// of its list, if it has room for all.
pub fn read_input(text: &[u8], old: &mut [u8], new: &mut [u8]) -> Option<u64>
    ensures { InputRead text.now old.old old.new new.old new.new result }
{
    if 32768 < text.len() {
        return None;
    }
    let ranks_at = behind(text, 0, b"ranks=")?;
    let ranks = read_number(text, ranks_at);
    let p = ranks.value?;
    let old_at = behind(text, ranks.next, b"\nold=")?;
    let old_list = read_list(text, old_at, &mut *old)?;
    let new_at = behind(text, old_list.next, b"new=")?;
    let new_list = read_list(text, new_at, &mut *new)?;
    let count = (p + 1) as usize;
    if new_list.next != text.len() || old_list.count != count || new_list.count != count {
        return None;
    }
    Some(p)
}
