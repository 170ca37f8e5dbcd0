// The functions that C calls (include/zuc.h), which `capi_c` exports: states are arrays of numbers that the caller lends,
// answers are numbers, and calls that differ in a cipher alone have a name each: so C has them.
#![tactic(auto)]

pub mod eea3;
pub mod frames;
pub mod generators;
pub mod links;
pub mod tags;
