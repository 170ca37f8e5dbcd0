// Links: exports of `capi::links`.
ghost use Rattle.std.specs.Prelude.{◌≡◌};
ghost use Rattle.guard.specs.Outcome.{accept_outcome, rekey_outcome, table_of};

use guard::Link;

// Whether a COUNT may pass on a link, or BAD_LINK, BAD_AGE, BAD_REUSE.
#[unsafe(no_mangle)]
pub extern "C" fn zuc_guard_accept(links: &mut [Link], at: usize, count: u32) -> u32
    ensures { record { number = result; table = table_of links.new } ≡ accept_outcome (table_of links.old) at count }
{
    capi::links::zuc_guard_accept(links, at, count)
}

// A link made fresh again, or BAD_LINK.
#[unsafe(no_mangle)]
pub extern "C" fn zuc_guard_rekey(links: &mut [Link], at: usize) -> u32
    ensures { record { number = result; table = table_of links.new } ≡ rekey_outcome (table_of links.old) at }
{
    capi::links::zuc_guard_rekey(links, at)
}
