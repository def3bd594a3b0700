// Places of a marking that have a token.
ghost use Rattle.std.specs.Prelude.{◌≡◌, ◌+◌, ◌≤◌, ◌<◌};
ghost use Rattle.readback.specs.Inner.Hits.{token, hits, FoundOf, OneMore};

use lists::word;

// How many of some places have a token, and which is the first of them, counted from 0; 0 where none has.
#[derive(Clone, Copy)]
pub struct Found {
    pub count: usize,
    pub first: usize,
}

pub(crate) fn is_marked(marking: &[u8], place: usize) -> bool
    ensures { result ≡ token marking.now place }
{
    word(marking, place) == 1
}

// One place more, which is the next after those looked at.
fn one_more(found: Found, i: usize, marked: bool) -> Found
    requires { found.count < 65536 }
    ensures { OneMore found i marked result }
{
    if !marked {
        return found;
    }
    if found.count == 0 {
        return Found { count: 1, first: i };
    }
    Found {
        count: found.count + 1,
        first: found.first,
    }
}

// The marked ones of `count` places from `start` on.
pub(crate) fn find(marking: &[u8], start: usize, count: usize) -> Found
    requires { (start < 4294967296) × (count ≤ 65535) }
    ensures { FoundOf (hits marking.now start count) result }
{
    let mut found = Found { count: 0, first: 0 };
    for i in 0..count {
        found = one_more(found, i, is_marked(marking, start + i));
    }
    found
}
