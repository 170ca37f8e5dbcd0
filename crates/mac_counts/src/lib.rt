// The words that a tag's calls would draw (request 2026-09), right for every message length: nothing here overflows.
#![tactic(auto)]

ghost use Rattle.std.specs.Prelude.{◌≡◌, ◌+◌, ◌*◌, ◌/◌, ◌<◌, ◌≤◌};
ghost use Rattle.standard.specs.Integrity.{drawn_by_tag-EIA3, drawn_by_tag-ZUC256, words_to_close-EIA3, words_to_close-ZUC256, words_to_update};
ghost use Rattle.mac_registers.specs.Inner.{Width};

// The whole units in so many things more than some before them.
fn wholes(unit: usize, before: usize, n: usize) -> usize
    requires { (4 ≤ unit) × (unit ≤ 128) × (before ≤ 128) }
    ensures { result ≡ (before + n) / unit }
{
    n / unit + (before + n % unit) / unit
}

// An update of n bytes, where some wait.
pub fn to_update(width: usize, waiting: usize, n: usize) -> usize
    requires { Width width × (waiting < width) }
    ensures { result ≡ words_to_update (width * 8) waiting n }
{
    width / 4 * wholes(width, waiting, n)
}

// A closing of ZUC-128 or EIA3 by l bits, where some bytes wait. It and ZUC-256's stay two functions, as their tags do below: the documents
// count words begun here and blocks completed there, so that one function would be a switch.
pub fn to_close_128(waiting: usize, l: usize) -> usize
    requires { waiting < 4 }
    ensures { result ≡ words_to_close-EIA3 waiting l }
{
    wholes(32, 8 * waiting + 31, l)
}

// A closing of ZUC-256, likewise.
pub fn to_close_256(width: usize, waiting: usize, l: usize) -> usize
    requires { Width width × (waiting < width) }
    ensures { result ≡ words_to_close-ZUC256 (width * 8) waiting l }
{
    width / 4 * wholes(8 * width, 8 * waiting, l)
}

// A whole message of l bits at once.
pub fn by_tag_128(l: usize) -> usize
    ensures { result ≡ drawn_by_tag-EIA3 l }
{
    l.div_ceil(32) + 2
}

pub fn by_tag_256(width: usize, l: usize) -> usize
    requires { Width width }
    ensures { result ≡ drawn_by_tag-ZUC256 (width * 8) l }
{
    width / 4 * (3 + l / (8 * width))
}
