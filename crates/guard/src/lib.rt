// A guard over a lent table of links: no COUNT passes twice on one link under one key.
#![tactic(auto)]

ghost use Rattle.std.specs.Prelude.{◌≡◌, ◌*◌, ◌%◌, ◌^◌};
ghost use Rattle.guard.specs.Inner.{standing_bits, step_outcome, step_told};
ghost use Rattle.guard.specs.Outcome.{accept_outcome, link_of, rekey_outcome, table_of};
ghost use Rattle.refusals.specs.Numbers.{answer_number};

use refusals::Refusal;

// A link: its highest COUNT, and which of the 64 counts ending there were accepted, bit i for COUNT highest - i. Zeros are a fresh one.
#[repr(C)]
#[derive(Clone, Copy, Debug, PartialEq, Eq, Default)]
pub struct Link {
    pub highest: u32,
    pub accepted: u64,
}

// The bits that stand for a COUNT: one past bit `highest` would stand for a number below 0.
fn standing(l: Link) -> u64
    ensures { result ≡ standing_bits (link_of l) }
{
    let highest = l.highest;
    let accepted = l.accepted;
    if highest < 63 {
        let past: u64 = 2 << highest;
        return accepted % past;
    }
    accepted
}

// A window moved up: what leaves it is dropped, all of it where it moves by 64 or more.
fn raised(bits: u64, up: u32) -> u64
    ensures { result ≡ bits * 2 ^ up % 2 ^ 64 }
{
    if up < 64 {
        return bits << up;
    }
    0
}

// The link after a COUNT: one above the highest moves the window; one inside it is set there, once.
#[tactic(auto, using(crate::proofs::Stepping::old_is))]
fn step(l: Link, count: u32) -> Result<Link, Refusal>
    ensures { step_told result (link_of l) ≡ step_outcome (link_of l) count }
{
    let highest = l.highest;
    let bits = standing(l);
    if highest < count {
        let moved = raised(bits, count - highest);
        return Ok(Link {
            highest: count,
            accepted: moved + 1,
        });
    }
    let back = highest - count;
    if 63 < back {
        return Err(Refusal::BadAge);
    }
    if (bits >> back) % 2 == 1 {
        return Err(Refusal::BadReuse);
    }
    let bit: u64 = 1 << back;
    Ok(Link {
        highest,
        accepted: bits + bit,
    })
}

// Whether a COUNT may pass on the link at a place of the table, and if so, that it has; or BadLink, BadAge, BadReuse, in this order.
pub fn accept(links: &mut [Link], at: usize, count: u32) -> Result<(), Refusal>
    ensures { record { number = answer_number result; table = table_of links.new } ≡ accept_outcome (table_of links.old) at count }
{
    if links.len() <= at {
        return Err(Refusal::BadLink);
    }
    links[at] = step(links[at], count)?;
    Ok(())
}

// The link at a place of the table is fresh again, for a new key; or BadLink.
pub fn rekey(links: &mut [Link], at: usize) -> Result<(), Refusal>
    ensures { record { number = answer_number result; table = table_of links.new } ≡ rekey_outcome (table_of links.old) at }
{
    if links.len() <= at {
        return Err(Refusal::BadLink);
    }
    links[at] = Link {
        highest: 0,
        accepted: 0,
    };
    Ok(())
}

// A table of four links by value, and the answer to a COUNT.
#[derive(Clone, Copy)]
pub struct Four {
    pub links: [Link; 4],
    pub answer: Result<(), Refusal>,
}

// `accept` for a caller that has a table by value, and none to lend.
pub fn accept_in(links: [Link; 4], at: usize, count: u32) -> Four
    ensures { record { number = answer_number result.answer; table = table_of result.links } ≡ accept_outcome (table_of links) at count }
{
    let mut table = links;
    let answer = accept(&mut table, at, count);
    Four {
        links: table,
        answer,
    }
}
