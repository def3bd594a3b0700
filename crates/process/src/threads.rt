// Kinds of nodes and branches.
ghost use Rattle.std.specs.Prelude.{◌≡◌, ◌&&◌, ltb};
ghost use Rattle.lists.specs.Lists.{same};
ghost use Rattle.scheme.specs.Words.{nodes, branches, node_kind, branch_kind};
ghost use Rattle.scheme.specs.Scheme.{scheme};
ghost use Rattle.scheme.specs.Kinds.{is_stop_node};

use lists::word;
use scheme::fields::{field3, field4};

// Whether the table has the node, and it is of the kind.
pub(crate) fn node_is(table: &[u16], node: usize, kind: usize) -> bool
    ensures { result ≡ (ltb node (nodes table.now) && same (node_kind table.now node) kind) }
{
    node < word(table, 4) && field3(table, 10, node, 0) == kind
}

// Whether the table has the branch, and it is of the kind.
pub(crate) fn branch_is(table: &[u16], branch: usize, kind: usize) -> bool
    ensures { result ≡ (ltb branch (branches table.now)
        && same (branch_kind table.now branch) kind) }
{
    branch < word(table, 5) && field4(table, 11, branch, 0) == kind
}

// Whether the node is a Stop.
pub(crate) fn is_stop(table: &[u16], node: usize) -> bool
    ensures { result ≡ is_stop_node ((scheme table.now).node node) }
{
    !node_is(table, node, 1) && !node_is(table, node, 2) && !node_is(table, node, 3)
}
