// Cause 8: names used where they are held. A body is checked node by node from its root; the names held on the way are
// tallied in an array that goes down by value, publics among them.
ghost use Rattle.std.specs.Prelude.{◌≡◌, ℕ, ◌+◌, ◌-◌, ◌≤◌, ◌<◌};
ghost use Rattle.lists.specs.Lists.{from, every};
ghost use Rattle.scheme.specs.Words.{definitions, nodes, root, argument};
ghost use Rattle.table.specs.Causes.{usable, is_scope_right};
ghost use Rattle.table.specs.Inner.Shaped.{Shaped, BranchOf};
ghost use Rattle.table.specs.Inner.Scope.{held_tally, body_scoped, branch_body_scoped};

use lists::word;
use scheme::fields::{BranchKind, NodeKind, branch_kind, field1, field3, field4, node_kind};
use scheme::spans::{tally, tally_span};

// Whether the arguments from `first` up to `end` are all held.
fn arguments_held(table: &[u16], node: usize, first: usize, end: usize, held: &[u8]) -> bool
    requires { (held.now ≡ held_tally table.now node)
        × ((a : ℕ) → first ≤ a → a < end → argument table.now a < 64) }
    ensures { result ≡ every (λ a. usable table.now node (argument table.now a))
        (from first (end - first)) }
{
    (first..end).all(|a| word(held, field1(table, 12, a)) != 0)
}

// Whether a node and all below it use names that they hold.
#[cycle(branch_scoped_node_scoped)]
fn node_scoped(table: &[u16], node: usize, held: [u8; 64]) -> bool
    requires { Shaped table.now × (node < nodes table.now) × (held ≡ held_tally table.now node) }
    ensures { result ≡ body_scoped table.now node }
{
    let first = field3(table, 10, node, 1);
    let second = field3(table, 10, node, 2);
    match node_kind(table, node) {
        Some(NodeKind::Choice) => {
            for b in first..first + second {
                if !branch_scoped(table, node, b, held) {
                    return false;
                }
            }
            true
        }
        Some(NodeKind::New) => {
            let mut inner = held;
            tally(&mut inner, first);
            node_scoped(table, second, inner)
        }
        Some(NodeKind::Call) => {
            let end = second + field4(table, 8, first, 3);
            arguments_held(table, node, second, end, &held)
        }
        Some(NodeKind::Stop) => true,
        None => true,
    }
}

// Whether a branch of a node, and all below it, use names that they hold.
#[cycle(branch_scoped_node_scoped)]
fn branch_scoped(table: &[u16], node: usize, branch: usize, held: [u8; 64]) -> bool
    requires { Shaped table.now × BranchOf table.now node branch × (held ≡ held_tally table.now node) }
    ensures { result ≡ branch_body_scoped table.now node branch }
{
    let kind = branch_kind(table, branch);
    let name = field4(table, 11, branch, 2);
    let next = field4(table, 11, branch, 3);
    if kind == Some(BranchKind::Silent) {
        return node_scoped(table, next, held);
    }
    if word(&held, field4(table, 11, branch, 1)) == 0 {
        return false;
    }
    if kind == Some(BranchKind::Receive) {
        let mut inner = held;
        tally(&mut inner, name);
        return node_scoped(table, next, inner);
    }
    if word(&held, name) == 0 {
        return false;
    }
    node_scoped(table, next, held)
}

// Whether a definition's body uses names that it holds.
fn definition_scoped(table: &[u16], definition: usize) -> bool
    requires { Shaped table.now × (definition < definitions table.now) }
    ensures { result ≡ body_scoped table.now (root table.now definition) }
{
    let mut held = [0u8; 64];
    tally_span(&mut held, 0, word(table, 0));
    let first = field4(table, 8, definition, 2);
    tally_span(&mut held, first, first + field4(table, 8, definition, 3));
    node_scoped(table, field4(table, 8, definition, 1), held)
}

pub(crate) fn scope_right(table: &[u16]) -> bool
    requires { Shaped table.now }
    ensures { result ≡ is_scope_right table.now }
{
    for d in 0..word(table, 2) {
        if !definition_scoped(table, d) {
            return false;
        }
    }
    true
}
