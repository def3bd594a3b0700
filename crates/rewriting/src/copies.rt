// What is copied: the numbers of definitions, names, nodes, branches and arguments, each in the order of its copies.
//
// One array has them all, 256 words each: definitions from 0 on, names from 256, nodes from 512, branches from 768,
// arguments from 1024.
ghost use Rattle.std.specs.Prelude.{◌≡◌, [], ◌∷◌, ◌+◌, ◌-◌, ◌≤◌, ◌<◌, length, set};
ghost use Rattle.std.proofs.Math.Seq.{slice};
ghost use Rattle.lists.specs.Lists.{pick, same, word, from, flat};
ghost use Rattle.scheme.specs.Spans.{span_of};
ghost use Rattle.scheme.specs.Index.{definitions_in, index_end};
ghost use Rattle.process.specs.Inner.Listed.{Listed, far, near};
ghost use Rattle.rewriting.specs.Inner.Copying.{self_call, Marked, grouped, Listable, Rows, originals_in};
ghost use Rattle.rewriting.specs.Inner.Counting.{Few, Summed, counts_within};
ghost use Rattle.rewriting.specs.Inner.Preparing.{PreparedRight};

use crate::belonging::name_definitions;
use lists::{store, word};
use scheme::fields::field3;
use scheme::index::{BINDERS, DEFINITIONS, fill};
use scheme::lookup::definition;
use scheme::spans::{Source, span_count, span_first};

// A section that has copies.
#[derive(Clone, Copy)]
pub enum Part {
    Names,
    Definitions,
    Nodes,
    Branches,
    Arguments,
}

// How many there are of each.
#[derive(Clone, Copy)]
pub struct Counts {
    pub definitions: usize,
    pub names: usize,
    pub nodes: usize,
    pub branches: usize,
    pub arguments: usize,
}

// The originals of a section's copies.
pub(crate) fn originals(list: &[u32], copies: Counts, part: Part) -> &[u32]
    requires { (length list.now ≡ 1280) × Few copies }
    ensures { result.now ≡ originals_in list.now copies part }
{
    match part {
        Part::Definitions => &list[..copies.definitions],
        Part::Names => &list[256..256 + copies.names],
        Part::Nodes => &list[512..512 + copies.nodes],
        Part::Branches => &list[768..768 + copies.branches],
        Part::Arguments => &list[1024..1024 + copies.arguments],
    }
}

// Whether a node is a Call of the definition that it stands in.
pub(crate) fn calls_itself(table: &[u16], index: &[u32], node: usize) -> bool
    ensures { result ≡ self_call table.now (definitions_in index.now) node }
{
    field3(table, 10, node, 0) == 3 && field3(table, 10, node, 1) == definition(index, node)
}

// Writes 1 at a node's definition if the node calls it.
fn mark_caller(table: &[u16], index: &[u32], node: usize, marks: &mut [u32])
    ensures { marks.new
        ≡ pick (self_call table.now (definitions_in index.now) node)
        (set marks.old (word (definitions_in index.now) node) 1) marks.old }
{
    if calls_itself(table, index, node) {
        store(marks, definition(index, node), 1);
    }
}

// Writes 1 at each definition that calls itself.
fn mark_callers(table: &[u16], index: &[u32], marks: &mut [u32])
    ensures { Marked table.now (definitions_in index.now) marks.old
        marks.new }
{
    let nodes = word(table, 4);
    for n in 0..nodes {
        mark_caller(table, index, n, marks);
    }
}

// Writes i if it belongs to the group; where the next number goes.
fn list_member(of: &[u32], group: usize, i: usize, at: usize, out: &mut [u32]) -> usize
    requires { (i < 4294967296) × (at < far) }
    ensures { Listed 1 (pick (same (word of.now i) group) (i ∷ []) []) out.old at
        out.new result }
{
    if word(of, i) == group {
        store(out, at, i as u32);
        return at + 1;
    }
    at
}

// Writes the numbers from `first` up to `end` that belong to the group.
fn list_group(
    of: &[u32],
    group: usize,
    first: usize,
    end: usize,
    at: usize,
    out: &mut [u32],
) -> usize
    requires { (end ≤ 131072) × (at < near) }
    ensures { Listed 131072 (grouped of.now (from first (end - first)) group) out.old at
        out.new result }
{
    let mut next = at;
    for i in first..end {
        next = list_member(of, group, i, next, out);
    }
    next
}

// Writes, for each of the groups that stand at the front of `out`, the numbers that belong to it.
fn list_groups(
    of: &[u32],
    groups: usize,
    first: usize,
    end: usize,
    at: usize,
    out: &mut [u32],
) -> usize
    requires { (end ≤ 131072) × (groups ≤ at) × (groups ≤ length out.old) × (at ≤ 1280) }
    ensures { Listed 167772160
        (flat (grouped of.now (from first (end - first))) (slice 0 groups out.old))
        out.old at out.new result }
{
    let mut next = at;
    for k in 0..groups {
        let group = word(out, k);
        next = list_group(of, group, first, end, next, out);
    }
    next
}

// Writes `count` numbers from `first` on.
fn list_span(first: usize, count: usize, at: usize, out: &mut [u32]) -> usize
    requires { (first < 65536) × (count < 65536) × (at < near) }
    ensures { Listed 65536 (from first count) out.old at out.new result }
{
    for i in 0..count {
        store(out, at + i, (first + i) as u32);
    }
    at + count
}

// Writes the branches, or the arguments, of each of the nodes that stand in `out` from 512 on.
fn list_spans(table: &[u16], source: Source, nodes: usize, at: usize, out: &mut [u32]) -> usize
    requires { (512 + nodes ≤ at) × (512 + nodes ≤ length out.old) × (at ≤ 1280) }
    ensures { Listed 83886080
        (flat (span_of table.now source) (slice 512 (512 + nodes) out.old)) out.old at
        out.new result }
{
    let mut next = at;
    for k in 0..nodes {
        let node = word(out, 512 + k);
        let first = span_first(table, source, node);
        let count = span_count(table, source, node);
        next = list_span(first, count, next, out);
    }
    next
}

// Lists what is copied.
pub(crate) fn list_copies(table: &[u16], index: &[u32], out: &mut [u32]) -> Counts
    requires { Listable table.now index.now out.old }
    ensures { Rows table.now out.new result }
{
    let mut names = [0u32; 64];
    name_definitions(table, index, &mut names);
    let mut marks = [0u32; 32];
    mark_callers(table, index, &mut marks);
    let publics = word(table, 0);
    let definitions = &index[DEFINITIONS..BINDERS];
    let d = list_group(&marks, 1, 0, word(table, 2), 0, out);
    let x = list_groups(&names, d, publics, publics + word(table, 1), 256, out);
    let n = list_groups(definitions, d, 0, word(table, 4), 512, out);
    let b = list_spans(table, Source::Branches, n - 512, 768, out);
    let a = list_spans(table, Source::Arguments, n - 512, 1024, out);
    Counts {
        definitions: d,
        names: x - 256,
        nodes: n - 512,
        branches: b - 768,
        arguments: a - 1024,
    }
}

// The counts of the table with its copies.
pub(crate) fn with_copies(table: &[u16], copies: Counts) -> Counts
    requires { Few copies }
    ensures { Summed table.now copies result }
{
    Counts {
        definitions: word(table, 2) + copies.definitions,
        names: word(table, 1) + copies.names,
        nodes: word(table, 4) + copies.nodes,
        branches: word(table, 5) + copies.branches,
        arguments: word(table, 6) + copies.arguments,
    }
}

// Whether the counts are within their bounds.
#[tactic(auto, unfolding(crate::specs::Inner::Counting::counts_within))]
pub(crate) fn within(counts: Counts) -> bool
    ensures { result ≡ counts_within counts }
{
    counts.names <= 32
        && counts.definitions <= 32
        && counts.nodes <= 256
        && counts.branches <= 256
        && counts.arguments <= 256
}

// Checks a table, fills in its index, and lists what is copied; how many there are of each, or what refuses the table.
pub(crate) fn prepare(
    table: &[u16],
    index: &mut [u32],
    list: &mut [u32],
) -> Result<Counts, table::Cause>
    requires { (length index.old ≡ index_end) × (length list.old ≡ 1280) }
    ensures { PreparedRight table.now index.new list.new result }
{
    table::check_sparing(table, true)?;
    fill(table, index);
    let copies = list_copies(table, index, list);
    if !within(with_copies(table, copies)) {
        return Err(table::Cause::Counts);
    }
    Ok(copies)
}
