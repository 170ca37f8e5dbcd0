// The functions that C calls (include/zuc.h), as symbols of a static library: each calls the one of its name in `capi` and promises the same.
#![tactic(auto)]

mod eea3;
mod frames;
mod generators;
mod links;
mod tags;
