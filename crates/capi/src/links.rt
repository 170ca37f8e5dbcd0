// Links: a guard over a table of structs that the caller lends, handed on as it is.
ghost use Rattle.std.specs.Prelude.{◌≡◌};
ghost use Rattle.guard.specs.Outcome.{accept_outcome, rekey_outcome, table_of};

use guard::Link;
use refusals::number_of;

// Whether a COUNT may pass on a link, or BAD_LINK, BAD_AGE, BAD_REUSE.
pub fn zuc_guard_accept(links: &mut [Link], at: usize, count: u32) -> u32
    ensures { record { number = result; table = table_of links.new } ≡ accept_outcome (table_of links.old) at count }
{
    number_of(&guard::accept(links, at, count))
}

// A link made fresh again, or BAD_LINK.
pub fn zuc_guard_rekey(links: &mut [Link], at: usize) -> u32
    ensures { record { number = result; table = table_of links.new } ≡ rekey_outcome (table_of links.old) at }
{
    number_of(&guard::rekey(links, at))
}
