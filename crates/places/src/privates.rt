// N: how many private values a net has.
ghost use Rattle.std.specs.Prelude.{◌≡◌, ◌<◌, ◌≤◌, map, length, nat_lt, slice_set};
ghost use Rattle.lists.specs.Lists.{pick, word, range, total};
ghost use Rattle.scheme.specs.Words.{nodes};
ghost use Rattle.scheme.specs.Scheme.{scheme};
ghost use Rattle.table.specs.Causes.{cause};
ghost use Rattle.table.specs.Known.{Known};
ghost use Rattle.places.specs.Inner.Plan.{privates_word};
ghost use Rattle.places.specs.Inner.Holding.{held_most, HeldBelow, NoneHeld, MostsHeld};

use crate::layout::free_names;
use lists::{store, word};
use scheme::fields::{field3, field4};
use scheme::lookup::{Parent, node_thread, step_up};

// How many names a node holds, told from how many the nodes below it hold.
fn held_count(table: &[u16], index: &[u32], below: &[u32], node: usize) -> usize
    requires { Known table.now index.now × (node < nodes table.now)
        × HeldBelow (scheme table.now) node below.now }
    ensures { result ≡ length ((scheme table.now).held node) }
{
    match step_up(index, node) {
        Parent::Definition(d) => field4(table, 8, d, 3),
        Parent::New(m) => word(below, m) + 1,
        Parent::Branch(b, m) => {
            let held = word(below, m);
            if field4(table, 11, b, 0) == 2 {
                return held + 1;
            }
            held
        }
        Parent::Nobody => 0,
    }
}

// The names that a node holds, with the formals of the definition that it calls: the most that its control places, or
// the first one of the called root, hold.
fn most_at(table: &[u16], node: usize, held: usize) -> usize
    requires { (cause table.now ≡ 0) × (node < nodes table.now)
        × (held ≡ length ((scheme table.now).held node)) }
    ensures { (result ≡ held_most (scheme table.now) node) × (result ≤ 64) }
{
    let kind = field3(table, 10, node, 0);
    if kind == 3 {
        return field4(table, 8, field3(table, 10, node, 1), 3) + held;
    }
    held
}

// Raises word t to `held`, where it is less.
fn raise(most: &mut [u32], t: usize, held: usize)
    requires { held ≤ 64 }
    ensures { most.new ≡ slice_set most.old t
        (pick (nat_lt (word most.old t) held) held (word most.old t)) }
{
    store(most, t, held.max(word(most, t)) as u32);
}

// How many names each node holds, from the lowest up.
pub(crate) fn hold_all(table: &[u16], index: &[u32], held: &mut [u32])
    requires { Known table.now index.now × (256 ≤ length held.old) }
    ensures { HeldBelow (scheme table.now) (nodes table.now) held.new }
{
    let nodes = word(table, 4);
    for node in 0..nodes {
        let count = held_count(table, index, held, node);
        store(held, node, count as u32);
    }
}

// The most names that a control place of each thread holds.
fn raise_all(table: &[u16], index: &[u32], held: &[u32], most: &mut [u32])
    requires { Known table.now index.now × HeldBelow (scheme table.now) (nodes table.now) held.now
        × NoneHeld most.old }
    ensures { MostsHeld (scheme table.now) most.new }
{
    let nodes = word(table, 4);
    for n in 0..nodes {
        raise(
            most,
            node_thread(table, index, n),
            most_at(table, n, word(held, n)),
        );
    }
}

// The sum of the first `count` words.
fn sum(words: &[u32], count: usize) -> usize
    requires { count ≤ 8 }
    ensures { result ≡ total (map (word words.now) (range count)) }
{
    (0..count).map(|i| word(words, i)).sum()
}

// N: none without restricted names, else what the threads hold at most, added up; `held` has how many each node holds.
pub(crate) fn private_values(table: &[u16], index: &[u32], held: &[u32]) -> usize
    requires { Known table.now index.now × HeldBelow (scheme table.now) (nodes table.now) held.now }
    ensures { (result ≡ privates_word table.now) × (result ≤ 32) }
{
    if free_names(table) == word(table, 1) {
        return 0;
    }
    let mut most = [0u32; 8];
    raise_all(table, index, held, &mut most);
    sum(&most, word(table, 3))
}
