// The values of a name, and the places of a name's row.
ghost use Rattle.std.specs.Prelude.{◌≡◌, ◌+◌, ◌<◌, ◌≤◌};
ghost use Rattle.scheme.specs.Words.{publics};
ghost use Rattle.scheme.specs.Scheme.{scheme};
ghost use Rattle.places.specs.Places.{equals, differs, free};
ghost use Rattle.places.specs.Rows.{number_of};
ghost use Rattle.places.specs.Plan.{Laid};
ghost use Rattle.places.specs.Inner.Plan.{today, privates_word, row_of, Holds, Differs};
ghost use Rattle.builder.specs.Inner.Parts.{ValueAt, CountOf};

use lists::word;
use places::count::publics_of;
use places::lookup::{free_start, privates};
use places::reach::{Reach, has_privates, nth, rank, reach_of};

// Value k of a name's reach.
pub(crate) fn value_at(publics: usize, values: Reach, k: usize) -> usize
    requires { (publics ≤ 64) × (k < 65536) }
    ensures { ValueAt publics values k result }
{
    let count = rank(values.publics, publics);
    if k < count {
        return nth(values.publics, k);
    }
    publics + (k - count)
}

// How many values a name's reach has.
pub(crate) fn value_count(publics: usize, privates: usize, values: Reach) -> usize
    requires { privates < 65536 }
    ensures { CountOf publics privates values result }
{
    let count = rank(values.publics, publics);
    if has_privates(values) {
        count + privates
    } else {
        count
    }
}

// The number of [x=v], given where the row of x starts.
pub(crate) fn equals(table: &[u16], index: &[u32], row: usize, name: usize, v: usize) -> u32
    requires { Laid table.now index.now × Holds table.now name v × (row ≡ row_of table.now name) }
    ensures { result ≡ number_of (scheme table.now) (today table.now) (equals name v) }
{
    let r = reach_of(index, name);
    let publics = word(table, 0);
    if v < publics {
        return (row + rank(r.publics, v)) as u32;
    }
    (row + rank(r.publics, publics) + (v - publics)) as u32
}

// The number of [x≠v], given where the row of x starts.
pub(crate) fn differs(table: &[u16], index: &[u32], row: usize, name: usize, v: usize) -> u32
    requires { Laid table.now index.now × Differs table.now name v × (row ≡ row_of table.now name) }
    ensures { result ≡ number_of (scheme table.now) (today table.now) (differs name v) }
{
    let r = reach_of(index, name);
    let first = row + publics_of(table, r) + privates(index);
    (first + (v - word(table, 0))) as u32
}

// The number of [*≠v].
pub(crate) fn free_place(table: &[u16], index: &[u32], v: usize) -> u32
    requires { Laid table.now index.now × (publics table.now ≤ v)
        × (v < publics table.now + privates_word table.now) }
    ensures { result ≡ number_of (scheme table.now) (today table.now) (free v) }
{
    (free_start(index) + (v - word(table, 0))) as u32
}
