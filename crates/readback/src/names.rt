// Names held where the threads stand, and the marked places of names' rows.
ghost use Rattle.std.specs.Prelude.{◌≡◌, ◌&&◌, ◌++◌, ◌+◌, ◌-◌, ◌≤◌, ◌<◌, length, take, true};
ghost use Rattle.std.proofs.Math.Seq.{slice};
ghost use Rattle.lists.specs.Lists.{word, from, range, every};
ghost use Rattle.scheme.specs.Words.{publics, names, nodes, node_first, formal_count, formals};
ghost use Rattle.scheme.specs.Scheme.{scheme};
ghost use Rattle.net.specs.Firing.{put};
ghost use Rattle.table.specs.Known.{Known};
ghost use Rattle.places.specs.Plan.{privates_at, free_at, Laid};
ghost use Rattle.places.specs.Inner.Plan.{row_of};
ghost use Rattle.readback.specs.Configurations.{spot, held_here};
ghost use Rattle.readback.specs.Inner.Hits.{token};
ghost use Rattle.readback.specs.Inner.Standing.{is_just_one, value_right, values_right};
ghost use Rattle.readback.specs.Inner.Standing.{is_opposed_for, opposed_all, freed_all};
ghost use Rattle.readback.specs.Inner.Showing.{AtNodes};
ghost use Rattle.readback.specs.Inner.Holding.{held_all, IsName, ValueAt, Filled, ValuesBelow};
ghost use Rattle.readback.specs.Inner.Freeing.{ValuesOnce, PrivateWord, taken_by, With, MarkedSet};

use crate::found::{find, is_marked};
use lists::{store, word};
use places::count::{privates_of, publics_of};
use places::lookup::{free_start, privates};
use places::reach::{Reach, has, nth, rank, reach_of};
use places::row::row_places;
use scheme::fields::{field3, field4, name_kind};
use scheme::lookup::held_names;

// Marks the names of a list from place `first` up to place `end`.
fn mark_names(names: &[u32], first: usize, end: usize, held: &mut [u8])
    requires { end ≤ length names.now }
    ensures { held.new ≡ put 1 held.old (slice first end names.now) }
{
    for i in first..end {
        store(held, word(names, i), 1);
    }
}

// Marks `count` names from `first` on.
fn mark_span(first: usize, count: usize, held: &mut [u8])
    requires { (first < 65536) × (count < 65536) }
    ensures { held.new ≡ put 1 held.old (from first count) }
{
    for i in 0..count {
        store(held, first + i, 1);
    }
}

// Marks the names held at control place k of a Call: the formals copied, then the names of the caller not
// released.
fn mark_call(table: &[u16], node: usize, k: usize, names: &[u32], count: usize, held: &mut [u8])
    requires { count ≤ length names.now }
    ensures { held.new ≡ put 1 held.old
        (take (k - 1) (formals table.now (node_first table.now node))
        ++ slice (k - (1 + formal_count table.now (node_first table.now node))) count
        names.now) }
{
    let d = field3(table, 10, node, 1);
    let formals = field4(table, 8, d, 3);
    mark_span(
        field4(table, 8, d, 2),
        k.saturating_sub(1).min(formals),
        held,
    );
    mark_names(names, k.saturating_sub(1 + formals), count, held);
}

// Marks the names held at control place k of a node.
fn mark_held(table: &[u16], index: &[u32], node: usize, k: usize, held: &mut [u8])
    requires { Known table.now index.now × (node < nodes table.now) }
    ensures { held.new
        ≡ put 1 held.old (held_here (scheme table.now) (spot node k)) }
{
    let mut names = [0u32; 64];
    let count = held_names(table, index, node as u8, &mut names);
    let kind = field3(table, 10, node, 0);
    if kind == 0 {
        return mark_names(&names, k, count, held);
    }
    if kind == 3 {
        return mark_call(table, node, k, &names, count, held);
    }
    mark_names(&names, 0, count, held);
}

// Marks the names held where the threads stand.
pub(crate) fn mark_all(
    table: &[u16],
    index: &[u32],
    places: &[u32],
    indexes: &[u32],
    held: &mut [u8],
)
    requires { Known table.now index.now × AtNodes table.now places.now }
    ensures { held.new
        ≡ put 1 held.old (held_all table.now places.now indexes.now) }
{
    let threads = word(table, 3);
    for t in 0..threads {
        mark_held(table, index, word(places, t), word(indexes, t), held);
    }
}

// Whether a bound name is restricted.
fn is_restricted(table: &[u16], name: usize) -> bool
    requires { IsName table.now name }
    ensures { result ≡ (scheme table.now).restricted name }
{
    name_kind(table, name) == 0
}

// Value k of a bound name whose reach is given.
fn value_at(table: &[u16], reach: Reach, k: usize) -> usize
    requires { (publics table.now ≤ 64) × (k < 65536) }
    ensures { ValueAt (publics table.now) reach k result }
{
    let publics = word(table, 0);
    let count = publics_of(table, reach);
    if k < count {
        return nth(reach.publics, k);
    }
    publics + (k - count)
}

// Fills in the marked value of a name whose row starts at `row`, 65535 where it has none. Whether it has one just if it
// is held.
fn find_value(
    table: &[u16],
    index: &[u32],
    marking: &[u8],
    held: &[u8],
    values: &mut [u16],
    row: usize,
    name: usize,
) -> bool
    requires { Laid table.now index.now × IsName table.now name × (row ≡ row_of table.now name) }
    ensures { (result ≡ value_right (scheme table.now) marking.now (word held.now)
        name)
        × (result ≡ true → Filled table.now marking.now name values.old
        values.new) }
{
    let reach = reach_of(index, name);
    let count = publics_of(table, reach) + privates_of(index, reach);
    let f = find(marking, row, count);
    if f.count != word(held, name) {
        return false;
    }
    if f.count == 0 {
        store(values, name, 65535);
        return true;
    }
    store(values, name, value_at(table, reach, f.first) as u16);
    true
}

// Whether of each of `count` places from `first` on and the one as far from `second` just one is marked.
fn opposite(marking: &[u8], first: usize, second: usize, count: usize) -> bool
    requires { (first < 8589934592) × (second < 8589934592) × (count < 65536) }
    ensures { result
        ≡ every (λ i. is_just_one (token marking.now (first + i)) (token marking.now (second + i)))
        (range count) }
{
    (0..count).all(|i| is_marked(marking, first + i) != is_marked(marking, second + i))
}

// Whether [x≠n] is marked just without [x=n], for a name that is not restricted; its row starts at `row`.
fn opposed_for(table: &[u16], index: &[u32], marking: &[u8], row: usize, name: usize) -> bool
    requires { Laid table.now index.now × IsName table.now name × (row ≡ row_of table.now name) }
    ensures { result ≡ is_opposed_for (scheme table.now) marking.now name }
{
    if is_restricted(table, name) {
        return true;
    }
    let reach = reach_of(index, name);
    let private = row + publics_of(table, reach);
    let count = privates_of(index, reach);
    opposite(marking, private, private + count, count)
}

// The marked value of each bound name. Whether each has one just if it is held, and [x≠n] is marked just without [x=n]
// for each name that is not restricted.
pub(crate) fn find_values(
    table: &[u16],
    index: &[u32],
    marking: &[u8],
    held: &[u8],
    values: &mut [u16],
) -> bool
    requires { Laid table.now index.now × (64 ≤ length values.old) }
    ensures { (result ≡ (values_right (scheme table.now) marking.now (word held.now)
        && opposed_all (scheme table.now) marking.now))
        × (result ≡ true → ValuesBelow table.now marking.now values.new
        (names table.now)) }
{
    let publics = word(table, 0);
    let end = publics + word(table, 1);
    let mut row = 0;
    for x in publics..end {
        if !find_value(table, index, marking, held, values, row, x)
            || !opposed_for(table, index, marking, row, x)
        {
            return false;
        }
        row += row_places(table, index, x, x + 1);
    }
    true
}

// The private value of a restricted name, counted from 0; 64 or more where it has none, and for other names.
fn private_value(table: &[u16], values: &[u16], name: usize) -> usize
    requires { IsName table.now name × PrivateWord table.now values.now name }
    ensures { result ≡ taken_by table.now values.now name }
{
    if !is_restricted(table, name) {
        return 64;
    }
    word(values, name) - word(table, 0)
}

// A set with number n too; no set has one from 64 on.
fn with_number(set: u64, n: usize) -> u64
    ensures { With set n result }
{
    if n < 64 {
        return set | 1u64 << n;
    }
    set
}

// The private values n whose [*≠n] is marked.
fn free_values(index: &[u32], marking: &[u8]) -> u64
    requires { word index.now privates_at ≤ 64 }
    ensures { MarkedSet marking.now (word index.now free_at)
        (word index.now privates_at) result }
{
    let start = free_start(index);
    let count = privates(index);
    let mut set = 0;
    for n in 0..count {
        if is_marked(marking, start + n) {
            set = with_number(set, n);
        }
    }
    set
}

// Whether [*≠n] is marked just where no restricted name has n, and no two have it: each n comes once, by its mark or by
// a name.
pub(crate) fn freed(table: &[u16], index: &[u32], marking: &[u8], values: &[u16]) -> bool
    requires { Laid table.now index.now × ValuesOnce table.now marking.now values.now }
    ensures { result ≡ freed_all (scheme table.now) marking.now }
{
    let publics = word(table, 0);
    let end = publics + word(table, 1);
    let mut set = free_values(index, marking);
    for x in publics..end {
        let n = private_value(table, values, x);
        if has(set, n) {
            return false;
        }
        set = with_number(set, n);
    }
    let count = privates(index);
    rank(set, count) == count
}
