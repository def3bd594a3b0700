// The chain of control places of a Stop or a Call: its copies and releases.
ghost use Rattle.std.specs.Prelude.{false, ◌≡◌, [], ◌∷◌, map, ◌+◌, ◌<◌, ◌≤◌, ltb, length, IfSome};
ghost use Rattle.lists.specs.Lists.{pick, from, range};
ghost use Rattle.scheme.specs.Words.{publics, names};
ghost use Rattle.scheme.specs.Owners.{held};
ghost use Rattle.scheme.specs.Scheme.{scheme};
ghost use Rattle.places.specs.Rows.{free_start_of};
ghost use Rattle.places.specs.Transitions.{releasing, releases, copying, copies};
ghost use Rattle.builder.specs.Inner.Writing.{put_all, Inside};
ghost use Rattle.builder.specs.Inner.Released.{given, Releasing};
ghost use Rattle.places.specs.Inner.Plan.{today, privates_word, row_of, values, argument_name};
ghost use Rattle.builder.specs.Inner.Parts.{put, state};
ghost use Rattle.places.specs.Plan.{Laid};
ghost use Rattle.builder.specs.Inner.Parts.{Chained, Takes, TakesAll, Begins};
ghost use Rattle.places.specs.Inner.Plan.{Holds, Reads, Named, Frees};

use crate::insertion::{insert, insert_equals};
use crate::layout::{differs, value_at, value_count};
use crate::write::{Heads, Label, transition};
use lists::word;
use places::count::publics_of;
use places::lookup::{free_start, privates};
use places::reach::{has_privates, reach_of};
use places::row::{Start, row_on, row_start};
use scheme::fields::{field1, name_kind};
use scheme::lookup::held_names;

// The chain of a node: the node that it leads to, its first control place, how many it has, and the place that the last
// one leads to.
#[derive(Clone, Copy)]
pub struct Chain {
    pub node: usize,
    pub to: usize,
    pub first: usize,
    pub controls: usize,
    pub last: usize,
}

// The name that is released at place k of a chain.
#[derive(Clone, Copy)]
pub struct Held {
    pub k: usize,
    pub name: usize,
}

// The formal that takes the value of an argument at place k of a chain.
#[derive(Clone, Copy)]
pub struct Passed {
    pub k: usize,
    pub formal: usize,
    pub argument: usize,
}

// The place that place k of a chain leads to.
pub(crate) fn on(c: Chain, k: usize) -> u32
    requires { (k < c.controls) × (c.first + c.controls < 4294967296) × (c.last < 4294967296) }
    ensures { result ≡ pick (ltb (k + 1) c.controls) (c.first + k + 1) c.last }
{
    if k + 1 < c.controls {
        return (c.first + k + 1) as u32;
    }
    c.last as u32
}

// Where the first private value is given back: at [*≠n] if name z is restricted, else at [z≠n], behind the values of
// z, of which `count` are public; its row starts at `row`.
fn given_back(table: &[u16], index: &[u32], row: usize, z: usize, count: usize) -> usize
    requires { Laid table.now index.now × (publics table.now ≤ z) × (z < names table.now) × (count ≤ 64)
        × (row ≡ row_of table.now z) }
    ensures { result ≡ pick ((scheme table.now).restricted z)
        (free_start_of (scheme table.now) (today table.now))
        (row_of table.now z + count + privates_word table.now) }
{
    if name_kind(table, z) == 0 {
        return free_start(index);
    }
    row + count + privates(index)
}

// The releases of `count` values of a name, the first of which has its place at `row`; private ones are given back, the
// first at `back`.
fn release_values(
    out: &mut [u32],
    h: Heads,
    c: Chain,
    x: Held,
    row: usize,
    back: Option<usize>,
    count: usize,
) -> Heads
    requires { Releasing c x × (row + count < 4294967296) × IfSome back (λ b. b + count < 4294967296)
        × Inside (put_all (given c x row back) (state out.old h) (range count)) }
    ensures { state out.new result
        ≡ put_all (given c x row back) (state out.old h) (range count) }
{
    let label = Label {
        kind: 1,
        a: c.node,
        b: x.name,
    };
    let after = on(c, x.k);
    let mut q = h;
    for i in 0..count {
        let ins = [(row + i) as u32, (c.first + x.k) as u32];
        q = match back {
            None => transition(out, q, label, &ins, 2, &[after], 1),
            Some(first) => transition(out, q, label, &ins, 2, &[(first + i) as u32, after], 2),
        };
    }
    q
}

// The releases of a name at its place of a chain: of its public values, then of its private ones. Its row starts at
// `row`.
fn release_name(
    table: &[u16],
    index: &[u32],
    out: &mut [u32],
    h: Heads,
    c: Chain,
    x: Held,
    row: usize,
) -> Heads
    requires { Laid table.now index.now × Chained table.now c × (x.k < c.controls)
        × (publics table.now ≤ x.name) × (x.name < names table.now) × (row ≡ row_of table.now x.name)
        × Inside (put table.now out.old h
        (map (releasing (scheme table.now) (today table.now) c.node c.to x.k x.name)
        (values table.now x.name))) }
    ensures { state out.new result
        ≡ put table.now out.old h
        (map (releasing (scheme table.now) (today table.now) c.node c.to x.k x.name)
        (values table.now x.name)) }
{
    let r = reach_of(index, x.name);
    let count = publics_of(table, r);
    let q = release_values(out, h, c, x, row, None, count);
    if !has_privates(r) {
        return q;
    }
    let first = row + count;
    let back = given_back(table, index, row, x.name, count);
    release_values(out, q, c, x, first, Some(back), privates(index))
}

// The releases of the names that the node of a chain holds, the first at place k.
pub(crate) fn release_all(
    table: &[u16],
    index: &[u32],
    out: &mut [u32],
    h: Heads,
    c: Chain,
    k: usize,
) -> Heads
    requires { Laid table.now index.now × Chained table.now c
        × (k + length (held table.now c.node) ≤ c.controls)
        × Inside (put table.now out.old h
        (releases (scheme table.now) (today table.now) c.node c.to k (held table.now c.node))) }
    ensures { state out.new result
        ≡ put table.now out.old h
        (releases (scheme table.now) (today table.now) c.node c.to k
        (held table.now c.node)) }
{
    let mut names = [0u32; 64];
    let count = held_names(table, index, c.node as u8, &mut names);
    let mut q = h;
    let mut s = Start { name: 0, row: 0 };
    for i in 0..count {
        let z = word(&names, i);
        s = row_on(table, index, s, z);
        q = release_name(table, index, out, q, c, Held { k: k + i, name: z }, s.row);
    }
    q
}

// A value that is copied, and where the rows of the formal and of its argument start.
#[derive(Clone, Copy)]
pub struct Copied {
    pub value: usize,
    pub formal: usize,
    pub argument: usize,
}

// The copy of a formal from its argument with one value.
fn copy(
    table: &[u16],
    index: &[u32],
    out: &mut [u32],
    h: Heads,
    c: Chain,
    x: Passed,
    v: Copied,
) -> Heads
    requires { Laid table.now index.now × Chained table.now c × (x.k < c.controls)
        × (publics table.now ≤ x.formal) × (x.formal < names table.now)
        × ((scheme table.now).restricted x.formal ≡ false)
        × Reads table.now x.argument v.value × Holds table.now x.formal v.value
        × Inside (put table.now out.old h
        (copying (scheme table.now) (today table.now) c.node c.to x.k x.formal x.argument
        v.value
        ∷ []))
        × Begins table.now x.argument v.argument × Begins table.now x.formal v.formal }
    ensures { state out.new result
        ≡ put table.now out.old h
        (copying (scheme table.now) (today table.now) c.node c.to x.k x.formal
        x.argument v.value
        ∷ []) }
{
    let publics = word(table, 0);
    let mut ins = [0u32; 4];
    let mut i = insert_equals(table, index, &mut ins, 0, v.argument, x.argument, v.value);
    let mut outs = ins;
    let mut o = insert_equals(table, index, &mut outs, i, v.formal, x.formal, v.value);
    o = insert(&mut outs, o, on(c, x.k));
    if publics <= v.value {
        i = insert(
            &mut ins,
            i,
            differs(table, index, v.formal, x.formal, v.value),
        );
    }
    i = insert(&mut ins, i, (c.first + x.k) as u32);
    let label = Label {
        kind: 0,
        a: c.node,
        b: x.formal,
    };
    transition(out, h, label, &ins, i, &outs, o)
}

// The copies of a formal from its argument.
fn copy_formal(
    table: &[u16],
    index: &[u32],
    out: &mut [u32],
    h: Heads,
    c: Chain,
    x: Passed,
) -> Heads
    requires { Laid table.now index.now × Chained table.now c × (x.k < c.controls)
        × (publics table.now ≤ x.formal) × (x.formal < names table.now)
        × ((scheme table.now).restricted x.formal ≡ false)
        × (x.argument < names table.now) × Takes table.now x.formal x.argument
        × Inside (put table.now out.old h
        (map (copying (scheme table.now) (today table.now) c.node c.to x.k x.formal x.argument)
        (values table.now x.argument))) }
    ensures { state out.new result
        ≡ put table.now out.old h
        (map (copying (scheme table.now) (today table.now) c.node c.to x.k x.formal
        x.argument) (values table.now x.argument)) }
{
    let publics = word(table, 0);
    let r = reach_of(index, x.argument);
    let count = value_count(publics, privates(index), r);
    let formal = row_start(table, index, x.formal);
    let argument = row_start(table, index, x.argument);
    let mut q = h;
    for i in 0..count {
        let v = Copied {
            value: value_at(publics, r, i),
            formal,
            argument,
        };
        q = copy(table, index, out, q, c, x, v);
    }
    q
}

// The copies of `count` formals from their arguments, the first as given.
pub(crate) fn copy_all(
    table: &[u16],
    index: &[u32],
    out: &mut [u32],
    h: Heads,
    c: Chain,
    x: Passed,
    count: usize,
) -> Heads
    requires { Laid table.now index.now × Chained table.now c × (x.k + count ≤ c.controls)
        × (x.argument < 65536)
        × Frees table.now (from x.formal count)
        × Named table.now (map (argument_name table.now) (from x.argument count))
        × TakesAll table.now x.formal x.argument count
        × Inside (put table.now out.old h
        (copies (scheme table.now) (today table.now) c.node c.to x.k (from x.formal count)
        (map (argument_name table.now) (from x.argument count)))) }
    ensures { state out.new result
        ≡ put table.now out.old h
        (copies (scheme table.now) (today table.now) c.node c.to x.k
        (from x.formal count)
        (map (argument_name table.now) (from x.argument count))) }
{
    let mut q = h;
    for i in 0..count {
        let y = Passed {
            k: x.k + i,
            formal: x.formal + i,
            argument: field1(table, 12, x.argument + i),
        };
        q = copy_formal(table, index, out, q, c, y);
    }
    q
}
