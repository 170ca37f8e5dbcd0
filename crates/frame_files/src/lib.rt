// What programs share: input read into a buffer; and, over frames, words of a command as numbers, keys, bodies and frames read from files, and
// what standard error is told.
#![tactic(auto)]

pub mod decimal;
pub mod files;
pub mod input;
pub mod told;
