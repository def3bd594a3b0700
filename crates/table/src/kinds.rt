// Cause 4: kinds that are known, and fields that must be 0 or not.
#![tactic(auto, unfolding(lists::specs::Lists::same, crate::specs::Causes::is_name_kind_right, crate::specs::Causes::are_formals_zero, crate::specs::Causes::is_call_zero, crate::specs::Causes::is_node_kind_right, crate::specs::Causes::is_branch_kind_right))]

ghost use Rattle.std.specs.Prelude.{◌≡◌};
ghost use Rattle.table.specs.Causes.{is_name_kind_right, are_formals_zero, is_call_zero, is_node_kind_right, is_branch_kind_right};
ghost use Rattle.table.specs.Causes.{are_kinds_right};

use lists::word;
use scheme::fields::{BranchKind, NodeKind, branch_kind, field3, field4, name_kind, node_kind};

fn name_kind_right(table: &[u16], name: usize) -> bool
    ensures { result ≡ is_name_kind_right table.now name }
{
    name_kind(table, name) <= 2
}

fn formals_zero(table: &[u16], definition: usize) -> bool
    ensures { result ≡ are_formals_zero table.now definition }
{
    field4(table, 8, definition, 3) != 0 || field4(table, 8, definition, 2) == 0
}

// Of a Call: its first argument is 0 where the definition called is there and has no formals.
fn call_zero(table: &[u16], node: usize) -> bool
    ensures { result ≡ is_call_zero table.now node }
{
    let called = field3(table, 10, node, 1);
    called >= word(table, 2) || field4(table, 8, called, 3) != 0 || field3(table, 10, node, 2) == 0
}

fn node_kind_right(table: &[u16], node: usize) -> bool
    ensures { result ≡ is_node_kind_right table.now node }
{
    match node_kind(table, node) {
        Some(NodeKind::Stop) => field3(table, 10, node, 1) == 0 && field3(table, 10, node, 2) == 0,
        Some(NodeKind::Choice) => field3(table, 10, node, 2) != 0,
        Some(NodeKind::New) => true,
        Some(NodeKind::Call) => call_zero(table, node),
        None => false,
    }
}

fn branch_kind_right(table: &[u16], branch: usize) -> bool
    ensures { result ≡ is_branch_kind_right table.now branch }
{
    match branch_kind(table, branch) {
        Some(BranchKind::Silent) => field4(table, 11, branch, 1) == 0
            && field4(table, 11, branch, 2) == 0,
        Some(BranchKind::Send | BranchKind::Receive) => true,
        None => false,
    }
}

pub(crate) fn kinds_right(table: &[u16]) -> bool
    ensures { result ≡ are_kinds_right table.now }
{
    let publics = word(table, 0);
    (publics..publics + word(table, 1)).all(|x| name_kind_right(table, x))
        && (0..word(table, 2)).all(|d| formals_zero(table, d))
        && (0..word(table, 4)).all(|n| node_kind_right(table, n))
        && (0..word(table, 5)).all(|b| branch_kind_right(table, b))
}
