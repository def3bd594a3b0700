// The transitions of nodes.
ghost use Rattle.std.specs.Prelude.{true, ◌≡◌, [], ◌∷◌, map, ◌+◌, ◌-◌, ◌<◌, ◌≤◌, length, take};
ghost use Rattle.lists.specs.Lists.{from, range, flat};
ghost use Rattle.scheme.specs.Words.{publics, nodes, branches, node_first, node_second};
ghost use Rattle.scheme.specs.Words.{is_stop_node, is_new, is_call_node};
ghost use Rattle.scheme.specs.Owners.{held};
ghost use Rattle.scheme.specs.Scheme.{scheme, call};
ghost use Rattle.places.specs.Transitions.{releases, silents, from_node_descriptions};
ghost use Rattle.places.specs.Inner.Arcs.{all_differ, numbers_for};
ghost use Rattle.builder.specs.Inner.Writing.{Inside};
ghost use Rattle.places.specs.Inner.Plan.{today, privates_word, control_of};
ghost use Rattle.builder.specs.Inner.Parts.{put, state, made, Filled, Begins, ReadsAll};
ghost use Rattle.table.specs.Causes.{cause};
ghost use Rattle.places.specs.Plan.{Laid};

use crate::chain::{Chain, Passed, copy_all, on, release_all};
use crate::insertion::{insert, insert_equals};
use crate::layout::{differs, free_place};
use crate::write::{Heads, Label, go, transition};
use lists::word;
use places::layout::is_read;
use places::lookup::{node_start, privates};
use places::row::{row_places, row_start};
use scheme::fields::{field3, field4};

fn silents(
    table: &[u16],
    index: &[u32],
    out: &mut [u32],
    h: Heads,
    n: usize,
    first: usize,
    end: usize,
) -> Heads
    requires { Laid table.now index.now × (n < nodes table.now) × (end ≤ branches table.now)
        × Inside (put table.now out.old h
        (flat (λ b. silents (scheme table.now) (today table.now) n b ((scheme table.now).branch b))
        (from first (end - first)))) }
    ensures { state out.new result
        ≡ put table.now out.old h
        (flat (λ b. silents (scheme table.now) (today table.now) n b
        ((scheme table.now).branch b)) (from first (end - first))) }
{
    let from = node_start(index, n) as u32;
    let mut q = h;
    for b in first..end {
        if field4(table, 11, b, 0) == 0 {
            q = go(
                out,
                q,
                3,
                b,
                from,
                node_start(index, field4(table, 11, b, 3)) as u32,
            );
        }
    }
    q
}

// Puts the numbers of every [x≠v] that there is into the list and returns how many there are.
fn differences(table: &[u16], index: &[u32], list: &mut [u32], v: usize) -> usize
    requires { Laid table.now index.now × (publics table.now ≤ v)
        × (v < publics table.now + privates_word table.now) × (40 ≤ length list.old) }
    ensures { (take result list.new
        ≡ numbers_for (scheme table.now) (today table.now)
        (all_differ (scheme table.now) v))
        × (result ≡ length (numbers_for (scheme table.now) (today table.now)
        (all_differ (scheme table.now) v))) }
{
    let publics = word(table, 0);
    let end = publics + word(table, 1);
    let mut count = 0;
    let mut row = 0;
    for x in publics..end {
        if is_read(table, index, x) {
            count = insert(list, count, differs(table, index, row, x, v));
        }
        row += row_places(table, index, x, x + 1);
    }
    count
}

// The same for the first private value, if there is one.
fn first_reads(table: &[u16], index: &[u32], list: &mut [u32]) -> usize
    requires { Laid table.now index.now × (40 ≤ length list.old) }
    ensures { ReadsAll table.now list.new result }
{
    if privates(index) == 0 {
        return 0;
    }
    differences(table, index, list, word(table, 0))
}

// The node of a New, its place, the place of the node behind it, how many rows it reads, and where the row of its name
// starts.
#[derive(Clone, Copy)]
pub struct Move {
    pub node: usize,
    pub from: u32,
    pub to: u32,
    pub read: usize,
    pub row: usize,
}

// Puts the numbers of every [x≠v] that there is into the list, given those of the first private value, and returns how
// many there are: from one value to the next each number rises by 1.
fn risen(table: &[u16], first: &[u32], count: usize, v: usize, list: &mut [u32]) -> usize
    requires { (cause table.now ≡ 0) × (publics table.now ≤ v)
        × (v < publics table.now + privates_word table.now)
        × Filled table.now first.now count (all_differ (scheme table.now) (publics table.now))
        × (40 ≤ length first.now) × (40 ≤ length list.old) }
    ensures { (take result list.new
        ≡ numbers_for (scheme table.now) (today table.now)
        (all_differ (scheme table.now) v))
        × (result ≡ length (numbers_for (scheme table.now) (today table.now)
        (all_differ (scheme table.now) v))) }
{
    let rise = (v - word(table, 0)) as u32;
    for i in 0..count {
        list[i] = first[i] + rise;
    }
    count
}

// New with one value.
fn make(
    table: &[u16],
    index: &[u32],
    out: &mut [u32],
    h: Heads,
    m: Move,
    v: usize,
    first: &[u32],
) -> Heads
    requires { Laid table.now index.now × (m.node < nodes table.now) × (is_new table.now m.node ≡ true)
        × (m.from ≡ control_of table.now m.node)
        × (m.to ≡ control_of table.now (node_second table.now m.node))
        × (publics table.now ≤ v) × (v < publics table.now + privates_word table.now)
        × Inside (put table.now out.old h (made table.now m.node v ∷ []))
        × Filled table.now first.now m.read (all_differ (scheme table.now) (publics table.now))
        × (40 ≤ length first.now) × Begins table.now (node_first table.now m.node) m.row }
    ensures { state out.new result
        ≡ put table.now out.old h (made table.now m.node v ∷ []) }
{
    let name = field3(table, 10, m.node, 1);
    let mut ins = [0u32; 40];
    let mut i = risen(table, first, m.read, v, &mut ins);
    let mut outs = ins;
    let mut o = insert_equals(table, index, &mut outs, i, m.row, name, v);
    o = insert(&mut outs, o, m.to);
    i = insert(&mut ins, i, free_place(table, index, v));
    i = insert(&mut ins, i, m.from);
    let label = Label {
        kind: 2,
        a: m.node,
        b: name,
    };
    transition(out, h, label, &ins, i, &outs, o)
}

// A New; `first` has the numbers of every [x≠v] for the first private value, `read` of them.
fn news(
    table: &[u16],
    index: &[u32],
    out: &mut [u32],
    h: Heads,
    n: usize,
    first: &[u32],
    read: usize,
) -> Heads
    requires { Laid table.now index.now × (n < nodes table.now) × (is_new table.now n ≡ true)
        × Inside (put table.now out.old h
        (map (made table.now n) (from (publics table.now) (privates_word table.now))))
        × ReadsAll table.now first.now read }
    ensures { state out.new result
        ≡ put table.now out.old h
        (map (made table.now n) (from (publics table.now) (privates_word table.now))) }
{
    let publics = word(table, 0);
    let privates = privates(index);
    if privates == 0 {
        return h;
    }
    let m = Move {
        node: n,
        from: node_start(index, n) as u32,
        to: node_start(index, field3(table, 10, n, 2)) as u32,
        read,
        row: row_start(table, index, field3(table, 10, n, 1)),
    };
    let mut q = h;
    for k in 0..privates {
        q = make(table, index, out, q, m, publics + k, first);
    }
    q
}

fn call(table: &[u16], index: &[u32], out: &mut [u32], h: Heads, n: usize) -> Heads
    requires { Laid table.now index.now
        × (n < nodes table.now) × (is_call_node table.now n ≡ true)
        × Inside (put table.now out.old h
        (from_node_descriptions (scheme table.now) (today table.now) n (call (node_first table.now n)))) }
    ensures { state out.new result
        ≡ put table.now out.old h
        (from_node_descriptions (scheme table.now) (today table.now) n
        (call (node_first table.now n))) }
{
    let d = field3(table, 10, n, 1);
    let formals = field4(table, 8, d, 3);
    let to = field4(table, 8, d, 1);
    let first = node_start(index, n);
    let c = Chain {
        node: n,
        to,
        first,
        controls: node_start(index, n + 1) - first,
        last: node_start(index, to),
    };
    let mut q = go(out, h, 5, n, c.first as u32, on(c, 0));
    let x = Passed {
        k: 1,
        formal: field4(table, 8, d, 2),
        argument: field3(table, 10, n, 2),
    };
    q = copy_all(table, index, out, q, c, x, formals);
    release_all(table, index, out, q, c, 1 + formals)
}

fn stop(table: &[u16], index: &[u32], out: &mut [u32], h: Heads, n: usize) -> Heads
    requires { Laid table.now index.now
        × (n < nodes table.now) × (is_stop_node table.now n ≡ true)
        × Inside (put table.now out.old h
        (releases (scheme table.now) (today table.now) n n 0 (held table.now n))) }
    ensures { state out.new result
        ≡ put table.now out.old h
        (releases (scheme table.now) (today table.now) n n 0 (held table.now n)) }
{
    let first = node_start(index, n);
    let c = Chain {
        node: n,
        to: n,
        first,
        controls: node_start(index, n + 1) - first,
        last: first,
    };
    release_all(table, index, out, h, c, 0)
}

fn node(
    table: &[u16],
    index: &[u32],
    out: &mut [u32],
    h: Heads,
    n: usize,
    reads: &[u32],
    read: usize,
) -> Heads
    requires { Laid table.now index.now
        × (n < nodes table.now)
        × Inside (put table.now out.old h
        (from_node_descriptions (scheme table.now) (today table.now) n ((scheme table.now).node n)))
        × ReadsAll table.now reads.now read }
    ensures { state out.new result
        ≡ put table.now out.old h
        (from_node_descriptions (scheme table.now) (today table.now) n ((scheme table.now).node n)) }
{
    let kind = field3(table, 10, n, 0);
    let first = field3(table, 10, n, 1);
    let second = field3(table, 10, n, 2);
    match kind {
        0 => stop(table, index, out, h, n),
        1 => silents(table, index, out, h, n, first, first + second),
        2 => news(table, index, out, h, n, reads, read),
        _ => call(table, index, out, h, n),
    }
}

pub(crate) fn nodes(table: &[u16], index: &[u32], out: &mut [u32], h: Heads) -> Heads
    requires { Laid table.now index.now
        × Inside (put table.now out.old h
        (flat (λ n. from_node_descriptions (scheme table.now) (today table.now) n ((scheme table.now).node n))
        (range (nodes table.now)))) }
    ensures { state out.new result
        ≡ put table.now out.old h
        (flat (λ n. from_node_descriptions (scheme table.now) (today table.now) n
        ((scheme table.now).node n)) (range (nodes table.now))) }
{
    let mut reads = [0u32; 40];
    let read = first_reads(table, index, &mut reads);
    let count = word(table, 4);
    let mut q = h;
    for n in 0..count {
        q = node(table, index, out, q, n, &reads, read);
    }
    q
}
