// Whole meshes written from a function of links.
#![tactic(auto)]

pub mod write;
