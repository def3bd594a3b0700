// Cause 6: every node owned once, children above their parents, ranges of branches and arguments consecutive.
ghost use Rattle.std.specs.Prelude.{◌≡◌, ◌-◌, ◌≤◌, ◌<◌, ltb};
ghost use Rattle.lists.specs.Lists.{same, word, from, range, every};
ghost use Rattle.scheme.specs.Words.{nodes, next};
ghost use Rattle.table.specs.Causes.{consecutive, is_owned_once, are_children_above, is_shape_right};
ghost use Rattle.scheme.specs.Spans.{span_first_of, span_count_of};

use lists::word;
use scheme::fields::{NodeKind, field3, field4, node_kind};
use scheme::spans::{Source, span_count, span_first, tally_source};

#[tactic(auto, unfolding(lists::specs::Lists::same, lists::specs::Lists::every, scheme::specs::Words::branches_of, crate::specs::Causes::are_children_above))]
fn children_above(table: &[u16], node: usize) -> bool
    ensures { result ≡ are_children_above table.now node }
{
    let first = field3(table, 10, node, 1);
    let second = field3(table, 10, node, 2);
    match node_kind(table, node) {
        Some(NodeKind::Choice) => (first..first + second).all(|b| node < field4(table, 11, b, 3)),
        Some(NodeKind::New) => node < second,
        Some(NodeKind::Stop | NodeKind::Call) | None => true,
    }
}

// Whether the spans of the nodes are consecutive from 0 to `end`, empty ones passed over.
fn spans_consecutive(table: &[u16], source: Source, end: usize) -> bool
    ensures { result ≡ consecutive table.now (span_first_of table.now source)
        (span_count_of table.now source) end 0 (range (nodes table.now)) }
{
    let mut a = 0;
    for n in 0..word(table, 4) {
        let size = span_count(table, source, n);
        if size == 0 {
            continue;
        }
        if span_first(table, source, n) != a {
            return false;
        }
        a += size;
    }
    a == end
}

// Whether every node is once a root or child.
fn owned_once(table: &[u16]) -> bool
    requires { nodes table.now ≤ 256 }
    ensures { result ≡ every (is_owned_once table.now) (range (nodes table.now)) }
{
    let mut counts = [0u8; 256];
    let nodes = word(table, 4);
    tally_source(table, Source::Roots, word(table, 2), &mut counts);
    tally_source(table, Source::NewChildren, nodes, &mut counts);
    tally_source(table, Source::NextNodes, word(table, 5), &mut counts);
    (0..nodes).all(|k| word(&counts, k) == 1)
}

pub(crate) fn shape_right(table: &[u16]) -> bool
    requires { nodes table.now ≤ 256 }
    ensures { result ≡ is_shape_right table.now }
{
    spans_consecutive(table, Source::Branches, word(table, 5))
        && spans_consecutive(table, Source::Arguments, word(table, 6))
        && owned_once(table)
        && (0..word(table, 4)).all(|n| children_above(table, n))
}
