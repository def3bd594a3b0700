// Cause 9: entries of their own thread without formals, calls that stay in the thread and leave the definition unless
// self-calls are spared.
#![tactic(auto, unfolding(lists::specs::Lists::same, crate::specs::Causes::is_entry_right, crate::specs::Causes::call_right_in))]

ghost use Rattle.std.specs.Prelude.{◌≡◌, ◌≤◌, not};
ghost use Rattle.scheme.specs.Words.{definitions, nodes, branches, is_call_node};
ghost use Rattle.scheme.specs.Index.{definitions_in};
ghost use Rattle.lists.specs.Lists.{word, range, every};
ghost use Rattle.table.specs.Causes.{is_entry_right, call_right_in, are_calls_right};

use lists::word;
use scheme::fields::{NodeKind, field1, field3, field4, node_kind};
use scheme::index::{BINDERS, fill_bodies};
use scheme::lookup::definition;

fn entry_right(table: &[u16], thread: usize) -> bool
    ensures { result ≡ is_entry_right table.now thread }
{
    let definition = field1(table, 9, thread);
    field4(table, 8, definition, 0) == thread && field4(table, 8, definition, 3) == 0
}

// Whether a node that is a Call of the definition `own` stays in the thread, and leaves the definition or is spared.
fn call_right(table: &[u16], node: usize, own: usize, spared: bool) -> bool
    ensures { result ≡ call_right_in table.now spared own node }
{
    if node_kind(table, node) != Some(NodeKind::Call) {
        return true;
    }
    let called = field3(table, 10, node, 1);
    field4(table, 8, called, 0) == field4(table, 8, own, 0) && (spared || called != own)
}

// Without Calls the definitions of nodes are not asked for.
pub(crate) fn calls_right(table: &[u16], spared: bool) -> bool
    requires { (nodes table.now ≤ 256) × (branches table.now ≤ 256) × (definitions table.now ≤ 32) }
    ensures { result ≡ are_calls_right table.now spared }
{
    if !(0..word(table, 3)).all(|t| entry_right(table, t)) {
        return false;
    }
    let nodes = word(table, 4);
    if (0..nodes).all(|n| node_kind(table, n) != Some(NodeKind::Call)) {
        return true;
    }
    let mut index = [0u32; BINDERS];
    fill_bodies(table, &mut index);
    (0..nodes).all(|n| call_right(table, n, definition(&index, n), spared))
}
