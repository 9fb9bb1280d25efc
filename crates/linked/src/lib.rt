// The links of records that stand together, a part or the slots of an area, looked at from one end. No calls for users.
#![tactic(auto)]

pub mod check;
pub mod layout;
pub mod plain;
pub mod trees;
