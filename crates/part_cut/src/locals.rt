// Tree records with local indices, by the index of the ghosts' numbers.
ghost use Rattle.std.specs.Prelude.{◌≡◌, ◌+◌};
ghost use Rattle.encoding.specs.Pieces.{piece, splice};
ghost use Rattle.records.specs.Record.{tree_size};
ghost use Rattle.part.specs.Layout.{part_header};
ghost use Rattle.part.specs.Cut.{renamed};
ghost use Rattle.part.specs.Means.{row_with, rows_with};
ghost use Rattle.part_cut.specs.Means.{Known, local_in, RecordRoom, RecordsRoom, records_with};

use part::range::within;
use records::index::{GlobalIndex, LocalIndex, ghost_index, to_local};

// What a tree record's neighbours are renamed by: the index of the ghosts' numbers, and the range.
#[derive(Clone, Copy)]
struct Renaming<'a> {
    marks: &'a [u64],
    behind: &'a [u32],
    count: u32,
    first: u32,
    end: u32,
}

impl Renaming<'_> {
    // The local index of a neighbour; the mark of an unused face stays.
    fn local_index(self, neighbour: GlobalIndex) -> LocalIndex
        requires { Known self.marks.now self.behind.now self.count self.first self.end }
        ensures { result.0 ≡ local_in self.entry.marks.now self.entry.first self.entry.end neighbour.0 }
    {
        let k = neighbour.0;
        if k == 4294967295 {
            return LocalIndex(4294967295);
        }
        if within(self.first, self.end, k) {
            return to_local(neighbour, GlobalIndex(self.first));
        }
        let position = positions::index::count_below(
            self.marks,
            self.behind,
            self.count,
            neighbour,
        );
        ghost_index(self.end - self.first, position)
    }

    fn rename_row(self, row: [u32; 3]) -> [u32; 3]
        requires { Known self.marks.now self.behind.now self.count self.first self.end }
        ensures { result ≡ row_with (local_in self.entry.marks.now self.entry.first self.entry.end) row }
    {
        let index = self.local_index(GlobalIndex(row[0]));
        [index.0, row[1], row[2]]
    }

    // The six links of a record with local indices.
    fn rename_rows(self, rows: [[u32; 3]; 6]) -> [[u32; 3]; 6]
        requires { Known self.marks.now self.behind.now self.count self.first self.end }
        ensures { result ≡ rows_with (local_in self.entry.marks.now self.entry.first self.entry.end) rows }
    {
        [
            self.rename_row(rows[0]),
            self.rename_row(rows[1]),
            self.rename_row(rows[2]),
            self.rename_row(rows[3]),
            self.rename_row(rows[4]),
            self.rename_row(rows[5]),
        ]
    }
}

// Writes the tree record at byte `from` of a buffer to byte `to`.
fn write_tree(source: &[u8], from: usize, faces: u32, renaming: Renaming, out: &mut [u8], to: usize)
    requires { RecordRoom source.now out.old from faces renaming.marks.now renaming.behind.now renaming.count renaming.first renaming.end to }
    ensures { out.new ≡ splice out.old to (renamed (local_in renaming.entry.marks.now renaming.entry.first renaming.entry.end) faces (piece source.now from tree_size)) }
{
    let rows = records::links::rows_of(source, from, faces);
    let local = renaming.rename_rows(rows);
    encoding::record::copy64(source, from, &mut *out, to);
    records::links::put_rows(&mut *out, to, local, faces);
}

// Writes the n tree records from byte `from` of a buffer, the trees from `first` on, behind a part's header.
pub fn write_trees(
    source: &[u8],
    from: usize,
    faces: u32,
    first: u32,
    n: u32,
    marks: &[u64],
    behind: &[u32],
    count: u32,
    out: &mut [u8],
)
    requires { RecordsRoom source.now out.old from faces first n marks.now behind.now count }
    ensures { out.new ≡ splice out.old part_header (records_with (local_in marks.now first (first + n)) faces source.now from n) }
{
    let renaming = Renaming {
        marks,
        behind,
        count,
        first,
        end: first + n,
    };
    for i in 0..n {
        let before = 64 * (i as usize);
        write_tree(
            source,
            from + before,
            faces,
            renaming,
            &mut *out,
            32 + before,
        );
    }
}
