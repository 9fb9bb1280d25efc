// A column file with the fields of its header.
#[derive(Clone, Copy)]
pub struct Columns<'a> {
    pub file: &'a [u8],
    pub first: u32,
    pub count: u32,
    pub ghosts: u32,
    pub dimension: u32,
    pub trees: u32,
}
