// Where a whole mesh fails: the first place that is wrong, and what is wrong there.
#![tactic(auto)]

ghost use Rattle.std.specs.Prelude.{◌≡◌};
ghost use Rattle.faults.specs.Kinds.{fault_of};
ghost use Rattle.faults.specs.Calls.{mesh_fault_of};

use answer::{Kind, Place, Wrong};
use encoding::refusal::Refusal;

pub mod answer;
pub mod record;
pub mod tree;

// The first fault of a whole mesh (no refusal).
pub fn mesh_fault(mesh: &[u8]) -> Option<Place>
    ensures { fault_of result ≡ mesh_fault_of mesh.now }
{
    if !mesh::layout::header_sound(mesh) {
        return Some(Place {
            fault: Refusal::Mesh,
            at: 0,
            wrong: Wrong {
                kind: Kind::Header,
                face: 0,
            },
        });
    }
    tree::first_wrong(
        mesh,
        mesh::layout::dimension(mesh),
        mesh::layout::trees(mesh),
    )
}
