// Where the row of a name starts: the number of row places of the names below, by each name's reach. Nothing is kept.
ghost use Rattle.std.specs.Prelude.{◌≡◌, ◌≤◌};
ghost use Rattle.lists.specs.Lists.{word};
ghost use Rattle.places.specs.Plan.{privates_at};
ghost use Rattle.places.specs.Starts.{places_in, span_in, start_in, start_after, start_on};

use crate::lookup::privates;
use crate::reach::{has, public_word, restricted_word};
use lists::word;

// How many places the row of a name has: N where the name is in its own reach, so restricted; else the publics in its
// reach and, with a restricted name in it, 2N more.
fn places_of(index: &[u32], publics: usize, privates: u32, name: usize) -> usize
    requires { publics ≤ name }
    ensures { (result ≡ places_in publics index.now privates name) × (result ≤ 8589934654) }
{
    let restricted = restricted_word(index, name) as u64;
    if restricted == 0 {
        return (public_word(index, name) as u32).count_ones() as usize;
    }
    if has(restricted, name - publics) {
        return privates as usize;
    }
    (public_word(index, name) as u32).count_ones() as usize + 2 * (privates as usize)
}

// How many row places the bound names from `first` on and below `end` have, with so many private values.
pub(crate) fn places_with(
    table: &[u16],
    index: &[u32],
    privates: u32,
    first: usize,
    end: usize,
) -> usize
    ensures { result ≡ span_in table.now index.now privates first end }
{
    let publics = word(table, 0);
    let last = end.min(publics + word(table, 1));
    let mut count = 0;
    for x in first.max(publics)..last {
        count += places_of(index, publics, privates, x);
    }
    count
}

// How many row places the bound names from `first` on and below `end` have: so far their rows reach.
pub fn row_places(table: &[u16], index: &[u32], first: usize, end: usize) -> usize
    ensures { result
        ≡ span_in table.now index.now (word index.now privates_at) first end }
{
    places_with(table, index, privates(index) as u32, first, end)
}

// Where the row of a name starts; 0 for a public name, past the names where the last row ends.
pub fn row_start(table: &[u16], index: &[u32], name: usize) -> usize
    ensures { result ≡ start_in table.now index.now name }
{
    row_places(table, index, 0, name)
}

// A name, and where its row starts.
#[derive(Clone, Copy)]
pub struct Start {
    pub name: usize,
    pub row: usize,
}

// What the start of a name is counted from: the known one, or the first one where the name is below.
fn start_from(s: Start, name: usize) -> Start
    ensures { result ≡ start_after s name }
{
    if name < s.name {
        return Start { name: 0, row: 0 };
    }
    s
}

// Where the row of a bound name starts, counted on from the known one; for a public name what is known.
pub fn row_on(table: &[u16], index: &[u32], s: Start, name: usize) -> Start
    ensures { result ≡ start_on table.now index.now s name }
{
    if name == s.name {
        return s;
    }
    if name < word(table, 0) {
        return s;
    }
    let first = start_from(s, name);
    Start {
        name,
        row: std::num::wrapping_add_usize(first.row, row_places(table, index, first.name, name)),
    }
}
