// Cause 5: numbers and ranges inside their sections, and binders that name bound names.
#![tactic(auto, unfolding(lists::specs::Lists::same, crate::specs::Causes::are_formals_inside, crate::specs::Causes::is_definition_inside, crate::specs::Causes::is_entry_inside, crate::specs::Causes::is_node_inside, crate::specs::Causes::is_branch_inside, crate::specs::Causes::is_argument_inside))]

ghost use Rattle.std.specs.Prelude.{◌≡◌};
ghost use Rattle.scheme.specs.Words.{is_bound_name};
ghost use Rattle.table.specs.Causes.{are_formals_inside, is_definition_inside, is_entry_inside, is_node_inside, is_branch_inside};
ghost use Rattle.table.specs.Causes.{is_argument_inside, are_ranges_right};

use lists::word;
use scheme::fields::{BranchKind, NodeKind, branch_kind, field1, field3, field4, node_kind};

// Whether a number is that of a bound name.
fn is_bound(table: &[u16], name: usize) -> bool
    ensures { result ≡ is_bound_name table.now name }
{
    let publics = word(table, 0);
    publics <= name && name < publics + word(table, 1)
}

fn formals_inside(table: &[u16], definition: usize) -> bool
    ensures { result ≡ are_formals_inside table.now definition }
{
    let first = field4(table, 8, definition, 2);
    let count = field4(table, 8, definition, 3);
    let publics = word(table, 0);
    count == 0 || publics <= first && first + count <= publics + word(table, 1)
}

fn definition_inside(table: &[u16], definition: usize) -> bool
    ensures { result ≡ is_definition_inside table.now definition }
{
    field4(table, 8, definition, 0) < word(table, 3)
        && field4(table, 8, definition, 1) < word(table, 4)
        && formals_inside(table, definition)
}

fn entry_inside(table: &[u16], thread: usize) -> bool
    ensures { result ≡ is_entry_inside table.now thread }
{
    field1(table, 9, thread) < word(table, 2)
}

fn node_inside(table: &[u16], node: usize) -> bool
    ensures { result ≡ is_node_inside table.now node }
{
    let first = field3(table, 10, node, 1);
    let second = field3(table, 10, node, 2);
    match node_kind(table, node) {
        Some(NodeKind::Choice) => first + second <= word(table, 5),
        Some(NodeKind::New) => is_bound(table, first) && second < word(table, 4),
        Some(NodeKind::Call) => first < word(table, 2)
            && second + field4(table, 8, first, 3) <= word(table, 6),
        Some(NodeKind::Stop) | None => true,
    }
}

fn branch_inside(table: &[u16], branch: usize) -> bool
    ensures { result ≡ is_branch_inside table.now branch }
{
    if field4(table, 11, branch, 3) >= word(table, 4) {
        return false;
    }
    let channel = field4(table, 11, branch, 1);
    let name = field4(table, 11, branch, 2);
    let names = word(table, 0) + word(table, 1);
    match branch_kind(table, branch) {
        Some(BranchKind::Silent) => true,
        Some(BranchKind::Receive) => channel < names && is_bound(table, name),
        Some(BranchKind::Send) | None => channel < names && name < names,
    }
}

fn argument_inside(table: &[u16], argument: usize) -> bool
    ensures { result ≡ is_argument_inside table.now argument }
{
    field1(table, 12, argument) < word(table, 0) + word(table, 1)
}

pub(crate) fn ranges_right(table: &[u16]) -> bool
    ensures { result ≡ are_ranges_right table.now }
{
    (0..word(table, 2)).all(|d| definition_inside(table, d))
        && (0..word(table, 3)).all(|t| entry_inside(table, t))
        && (0..word(table, 4)).all(|n| node_inside(table, n))
        && (0..word(table, 5)).all(|b| branch_inside(table, b))
        && (0..word(table, 6)).all(|a| argument_inside(table, a))
}
