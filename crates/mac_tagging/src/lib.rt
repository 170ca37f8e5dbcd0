// Tags in the making: starts, updates and closings on a lent run, and the calls that lend it.
#![tactic(auto)]

pub mod calls;
pub mod closing;
pub mod updates;
