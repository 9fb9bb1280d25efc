// Why a call refuses: the check that failed first. C callers get its number, as include/vejgodat.h names it.
ghost use Rattle.std.specs.Prelude.{◌≡◌};
ghost use Rattle.encoding.specs.Refusals.{refusal_number, refusal_of};

#[derive(Clone, Copy, Debug, PartialEq, Eq)]
pub enum Refusal {
    /// a text to plan from is not in form
    Input = 1,
    /// a rank count isn't within its limits, or a table's length isn't that of one
    Ranks = 2,
    /// a table isn't valid
    Table = 3,
    /// old and new table differ in P or K
    Differ = 4,
    /// a rank, a tree, a local index, a face or a dimension is none
    Index = 5,
    /// ranges or leaf counts fit no table
    Partition = 6,
    /// a whole mesh isn't sound, or its K isn't the table's
    Mesh = 7,
    /// a part isn't sound for table and rank
    Part = 8,
    /// the sender sends the receiver no tree
    Nothing = 9,
    /// an area isn't sound
    Area = 10,
    /// a message breaks its layout
    Layout = 11,
    /// a message's epoch, dimension, K or P isn't the area's
    Run = 12,
    /// a message is for another rank
    Receiver = 13,
    /// a message's sender isn't in the receive set
    Sender = 14,
    /// the sender is already heard
    Heard = 15,
    /// a message's trees aren't exactly those due
    Trees = 16,
    /// a ghost of a message isn't due
    Ghosts = 17,
    /// a ghost of a message is already held
    Held = 18,
    /// not every sender is heard
    Missing = 20,
    /// the joined part isn't sound
    Join = 21,
    /// a buffer is too short
    Buffer = 22,
    /// a refinement string isn't in form
    String = 23,
    /// a shape has no refinement strings
    Shape = 24,
    /// a tree has too many leaves
    Leaves = 25,
    /// an extent of a brick is outside its limits
    Extent = 26,
    /// a text isn't an element file
    Text = 27,
    /// a triangle has a vertex twice
    Twice = 28,
    /// three faces have the same two vertices
    Edge = 29,
    /// all weights are 0, or one is too large
    Weights = 30,
    /// a probe has a NaN, an axis above 2 or its limits out of order
    Probe = 31,
    /// a tree's box has a NaN or low above high
    Box = 32,
    /// a column file isn't that of a sound part
    Columns = 33,
    /// a rank that must have no trees has some
    Occupied = 64,
    /// K, first tree or count of a rank differ under two tables
    Range = 65,
}

impl Refusal {
    pub fn number(self) -> u32
        ensures { result ≡ refusal_number self }
    {
        self as u32
    }
}

// The number of a check alone: 0 where all pass.
pub fn number_of(checked: Result<(), Refusal>) -> u32
    ensures { result ≡ refusal_of checked }
{
    match checked {
        Ok(()) => 0,
        Err(refusal) => refusal.number(),
    }
}
