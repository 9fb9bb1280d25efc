// The whole mesh and its soundness.
#![tactic(auto)]

ghost use Rattle.std.specs.Prelude.{◌≡◌};
ghost use Rattle.encoding.specs.Refusals.{refusal_of};
ghost use Rattle.mesh.specs.Mesh.{mesh_refusal};

use encoding::refusal::Refusal;

pub mod layout;
pub mod link;
pub mod plain;
pub mod sound;

// Check a whole mesh (7).
pub fn check_mesh(mesh: &[u8]) -> Result<(), Refusal>
    ensures { refusal_of result ≡ mesh_refusal mesh.now }
{
    if !sound::sound(mesh) {
        return Err(Refusal::Mesh);
    }
    Ok(())
}
