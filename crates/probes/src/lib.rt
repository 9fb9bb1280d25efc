// The trees of a part near a probe.
#![tactic(auto)]

ghost use Rattle.std.specs.Prelude.{◌≡◌};
ghost use Rattle.encoding.specs.Refusals.{count_of};
ghost use Rattle.probes.specs.Calls.{trees_near};

use encoding::refusal::Refusal;

mod boxes;
mod list;

// A point, a half space below a limit on an axis, or a slab between two limits on an axis, the lower one first.
#[derive(Clone, Copy)]
pub enum Probe {
    Point(f32, f32, f32),
    HalfSpace(u32, f32),
    Slab(u32, f32, f32),
}

// List the local trees of the part that the probe meets, ascending (2, 3, 5, 8, 31, 32, 22).
pub fn trees_near(
    part: &[u8],
    table: &[u8],
    rank: u32,
    probe: Probe,
    out: &mut [u32],
) -> Result<u32, Refusal>
    ensures { (count_of result, out.new) ≡ trees_near part.now table.now rank probe out.old }
{
    part_check::check_part(part, table, rank)?;
    if !boxes::probe_ok(probe) {
        return Err(Refusal::Probe);
    }
    if !list::boxes_ok(part) {
        return Err(Refusal::Box);
    }
    let count = list::count_met(part, probe);
    if out.len() < (count as usize) {
        return Err(Refusal::Buffer);
    }
    list::write(part, probe, count, &mut *out);
    Ok(count)
}
