// The trees that a probe meets: a pass over the bits of all boxes, and only then two that compare floats, which count and list.
ghost use Rattle.std.specs.Prelude.{◌≡◌};
ghost use Rattle.encoding.specs.Pieces.{splice};
ghost use Rattle.encoding.specs.Below.{count_below};
ghost use Rattle.part.specs.Part.{part_count};
ghost use Rattle.probes.specs.Probes.{boxes_ok, meets as meets_box, trees_met};
ghost use Rattle.probes.specs.Means.{HasTrees, Comparable, Listable};

use crate::Probe;
use crate::boxes::{box_ok, meets};
use part::layout::tree_count;
use records::index::LocalIndex;

// Whether every box is sound.
pub fn boxes_ok(part: &[u8]) -> bool
    requires { HasTrees part.now }
    ensures { result ≡ boxes_ok part.now }
{
    let n = tree_count(part);
    for i in 0..n {
        if !box_ok(part, LocalIndex(i)) {
            return false;
        }
    }
    true
}

// How many trees the probe meets.
pub fn count_met(part: &[u8], probe: Probe) -> u32
    requires { Comparable part.now probe }
    ensures { result ≡ count_below (part_count part.now) (meets_box probe part.now) }
{
    let n = tree_count(part);
    let mut met = 0;
    for i in 0..n {
        if meets(part, LocalIndex(i), probe) {
            met += 1;
        }
    }
    met
}

// Write the trees met, of which there are `met`: behind the last one no tree is looked at.
pub fn write(part: &[u8], probe: Probe, met: u32, out: &mut [u32])
    requires { Listable part.now probe met out.old }
    ensures { out.new ≡ splice out.old 0 (trees_met part.now probe) }
{
    let end = met as usize;
    let n = tree_count(part);
    let mut count = 0;
    for i in 0..n {
        if count == end {
            break;
        }
        if meets(part, LocalIndex(i), probe) {
            out[count] = i;
            count += 1;
        }
    }
}
