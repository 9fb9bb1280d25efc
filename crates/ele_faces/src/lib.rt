// Faces of triangles.
#![tactic(auto)]

pub mod face;
