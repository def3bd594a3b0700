// The numbers that the entries of a table name, a span of consecutive numbers an entry, and tallies of them.
#![tactic(auto, unfolding(lists::specs::Lists::same, crate::specs::Spans::tallied))]

ghost use Rattle.std.specs.Prelude.{◌≡◌, ◌+◌, ◌-◌, ◌<◌};
ghost use Rattle.lists.specs.Lists.{bit, from, range, flat};
ghost use Rattle.scheme.specs.Words.{is_new, is_receive};
ghost use Rattle.scheme.specs.Words.{branch_count_of, argument_count_of};
ghost use Rattle.scheme.specs.Words.{Number};
ghost use Rattle.scheme.specs.Spans.{span_first_of, span_count_of, span_of, tallied, tally_all};
ghost use Rattle.scheme.specs.Inner.Scatter.{put_all};
ghost use Rattle.scheme.specs.Inner.Scatter.{scatter};

use crate::fields::{BranchKind, NodeKind, branch_kind, field3, field4, node_kind};
use lists::{store, word};

// What an entry names: a definition its root or its formals, a New its child or its name, a branch its next node or the
// name that it receives, a Choice its branches, a Call its arguments.
#[derive(Clone, Copy)]
pub enum Source {
    Roots,
    Formals,
    NewChildren,
    NewNames,
    NextNodes,
    ReceivedNames,
    Branches,
    Arguments,
}

// 1 for a New, 0 for another node.
fn new_count(table: &[u16], node: usize) -> usize
    ensures { Number (bit (is_new table.now node)) result }
{
    usize::from(node_kind(table, node) == Some(NodeKind::New))
}

// 1 for a receive, 0 for another branch.
fn received_count(table: &[u16], branch: usize) -> usize
    ensures { Number (bit (is_receive table.now branch)) result }
{
    usize::from(branch_kind(table, branch) == Some(BranchKind::Receive))
}

// How many branches a node has.
fn branch_count(table: &[u16], node: usize) -> usize
    ensures { Number (branch_count_of table.now node) result }
{
    if node_kind(table, node) == Some(NodeKind::Choice) {
        field3(table, 10, node, 2)
    } else {
        0
    }
}

// How many arguments a node has.
fn argument_count(table: &[u16], node: usize) -> usize
    ensures { Number (argument_count_of table.now node) result }
{
    if node_kind(table, node) == Some(NodeKind::Call) {
        field4(table, 8, field3(table, 10, node, 1), 3)
    } else {
        0
    }
}

// The first number that entry i names.
pub fn span_first(table: &[u16], source: Source, i: usize) -> usize
    ensures { Number (span_first_of table.now source i) result }
{
    match source {
        Source::Roots => field4(table, 8, i, 1),
        Source::Formals => field4(table, 8, i, 2),
        Source::NewNames | Source::Branches => field3(table, 10, i, 1),
        Source::NewChildren | Source::Arguments => field3(table, 10, i, 2),
        Source::NextNodes => field4(table, 11, i, 3),
        Source::ReceivedNames => field4(table, 11, i, 2),
    }
}

// How many numbers entry i names.
pub fn span_count(table: &[u16], source: Source, i: usize) -> usize
    ensures { Number (span_count_of table.now source i) result }
{
    match source {
        Source::Roots | Source::NextNodes => 1,
        Source::Formals => field4(table, 8, i, 3),
        Source::NewChildren | Source::NewNames => new_count(table, i),
        Source::ReceivedNames => received_count(table, i),
        Source::Branches => branch_count(table, i),
        Source::Arguments => argument_count(table, i),
    }
}

// One more at x, and no more than two.
pub fn tally(counts: &mut [u8], x: usize)
    ensures { counts.new ≡ tallied counts.old x }
{
    let more = if word(counts, x) == 0 { 1 } else { 2 };
    store(counts, x, more);
}

// One more at each of the numbers from `first` up to `end`.
pub fn tally_span(counts: &mut [u8], first: usize, end: usize)
    ensures { counts.new ≡ tally_all counts.old (from first (end - first)) }
{
    for x in first..end {
        tally(counts, x);
    }
}

// One more at each number that the first n entries name.
pub fn tally_source(table: &[u16], source: Source, n: usize, counts: &mut [u8])
    ensures { counts.new
        ≡ tally_all counts.old (flat (span_of table.now source) (range n)) }
{
    for i in 0..n {
        let first = span_first(table, source, i);
        tally_span(counts, first, first + span_count(table, source, i));
    }
}

// v at each of the numbers from `first` up to `end`.
pub(crate) fn put_span(out: &mut [u32], first: usize, end: usize, v: u32)
    ensures { out.new ≡ put_all v (from first (end - first)) out.old }
{
    for x in first..end {
        store(out, x, v);
    }
}

// tag + i at each number that entry i names, the last of the first n entries first, so that a lower entry stays.
pub(crate) fn scatter_source(table: &[u16], source: Source, n: usize, tag: u32, out: &mut [u32])
    requires { (n < 65536) × (tag < 262144) }
    ensures { out.new ≡ scatter (span_of table.now source) tag n out.old }
{
    for i in (0..n).rev() {
        let first = span_first(table, source, i);
        put_span(
            out,
            first,
            first + span_count(table, source, i),
            tag + i as u32,
        );
    }
}
