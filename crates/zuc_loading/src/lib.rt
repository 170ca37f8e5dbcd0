// Key loading: what a key and an IV of the right lengths leave in the cells.
#![tactic(auto)]

pub mod eea3;
pub mod zuc128;
pub mod zuc256;
