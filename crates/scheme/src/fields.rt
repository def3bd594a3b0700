// Fields of a table's sections. `section` is the header's word that holds where a section starts. A field past the
// table's end reads 0.
ghost use Rattle.std.specs.Prelude.{◌+◌, ◌-◌, ◌*◌};
ghost use Rattle.lists.specs.Lists.{Word, word};
ghost use Rattle.scheme.specs.Words.{node_kind, branch_kind};
ghost use Rattle.scheme.specs.Numbers.{NodeKindOf, BranchKindOf};

use lists::word;

// What a node is.
#[derive(Clone, Copy, Debug, PartialEq, Eq)]
pub enum NodeKind {
    Stop,
    Choice,
    New,
    Call,
}

// What a branch does.
#[derive(Clone, Copy, Debug, PartialEq, Eq)]
pub enum BranchKind {
    Silent,
    Send,
    Receive,
}

// Word k of entry i of a section with `size` words an entry.
fn field(table: &[u16], section: usize, size: usize, i: usize, k: u16) -> usize
    ensures { Word 65536 table.now (word table.now section + size * i + k) result }
{
    let start = word(table, section) + k as usize;
    word(table, start.saturating_add(size.saturating_mul(i)))
}

// Entry i of a section of single words.
pub fn field1(table: &[u16], section: usize, i: usize) -> usize
    ensures { Word 65536 table.now (word table.now section + i) result }
{
    field(table, section, 1, i, 0)
}

// Word k of entry i of a section with three words an entry.
pub fn field3(table: &[u16], section: usize, i: usize, k: u16) -> usize
    ensures { Word 65536 table.now (word table.now section + 3 * i + k) result }
{
    field(table, section, 3, i, k)
}

// Word k of entry i of a section with four words an entry.
pub fn field4(table: &[u16], section: usize, i: usize, k: u16) -> usize
    ensures { Word 65536 table.now (word table.now section + 4 * i + k) result }
{
    field(table, section, 4, i, k)
}

// The kind of a node, if there is one of its number.
pub fn node_kind(table: &[u16], node: usize) -> Option<NodeKind>
    ensures { NodeKindOf (node_kind table.now node) result }
{
    match field3(table, 10, node, 0) {
        0 => Some(NodeKind::Stop),
        1 => Some(NodeKind::Choice),
        2 => Some(NodeKind::New),
        3 => Some(NodeKind::Call),
        _ => None,
    }
}

// The kind of a branch, if there is one of its number.
pub fn branch_kind(table: &[u16], branch: usize) -> Option<BranchKind>
    ensures { BranchKindOf (branch_kind table.now branch) result }
{
    match field4(table, 11, branch, 0) {
        0 => Some(BranchKind::Silent),
        1 => Some(BranchKind::Send),
        2 => Some(BranchKind::Receive),
        _ => None,
    }
}

// The kind of a name; a public name reads as the first bound one.
pub fn name_kind(table: &[u16], name: usize) -> usize
    ensures { Word 65536 table.now
        (word table.now 7 + (name - word table.now 0)) result }
{
    field1(table, 7, name.saturating_sub(word(table, 0)))
}
