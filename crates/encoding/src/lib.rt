// Little-endian numbers, fixed-size records and headers in lent bytes, and the answers that public calls share.
#![tactic(auto)]

pub mod answer;
pub mod bytes;
pub mod header;
pub mod record;
pub mod refusal;
pub mod zero;
