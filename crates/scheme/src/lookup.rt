// What the index of a table tells: the owner, the definition and the thread of a node, the node and the thread of a
// branch, the binder and the thread of a name, the step up from a node, and the names that it holds. Exact on any
// words: what the index has no word for reads 0.
#![tactic(auto, unfolding(crate::specs::Index::numbered, crate::specs::Index::owners_in, crate::specs::Index::homes_in, crate::specs::Index::definitions_in, crate::specs::Index::binders_in))]

ghost use Rattle.std.specs.Prelude.{◌≡◌, ◌≤◌, ◌<◌};
ghost use Rattle.std.proofs.lemmas.List.Edits.{sets};
ghost use Rattle.std.proofs.Math.Seq.{slice};
ghost use Rattle.lists.specs.Lists.{Word, from};
ghost use Rattle.scheme.specs.Words.{Number};
ghost use Rattle.scheme.specs.Index.{owners_in, homes_in, definitions_in, binders_in, parent_at, held_at, thread_at};
ghost use Rattle.scheme.specs.Index.{branch_thread_at, name_thread_at, HeldNames};

use crate::fields::{BranchKind, branch_kind, field3, field4};
use crate::index::{BINDERS, DEFINITIONS, HOMES, SIZE};
use lists::{store, word};

// Where a step up from a node leads: to the definition whose root it is, to the New below, to a branch and the Choice
// below that has it, or nowhere.
#[derive(Clone, Copy)]
pub enum Parent {
    Definition(usize),
    New(usize),
    Branch(usize, usize),
    Nobody,
}

// Word i of the part from word `at` up to `end`, 0 past the part's end.
fn part(index: &[u32], at: usize, end: usize, i: usize) -> usize
    requires { (at ≤ end) × (end ≤ 832) }
    ensures { Word 4294967296 (slice at end index.now) i result }
{
    if i < end - at { word(index, at + i) } else { 0 }
}

// What owns a node, as a number.
pub(crate) fn owner(index: &[u32], node: usize) -> usize
    ensures { Word 4294967296 (owners_in index.now) node result }
{
    part(index, 0, HOMES, node)
}

// The node that has a branch.
pub fn home(index: &[u32], branch: usize) -> usize
    ensures { Word 4294967296 (homes_in index.now) branch result }
{
    part(index, HOMES, DEFINITIONS, branch)
}

// The definition that a node is in.
pub fn definition(index: &[u32], node: usize) -> usize
    ensures { Word 4294967296 (definitions_in index.now) node result }
{
    part(index, DEFINITIONS, BINDERS, node)
}

// What binds a name, as a number.
pub fn binder(index: &[u32], name: usize) -> usize
    ensures { Word 4294967296 (binders_in index.now) name result }
{
    part(index, BINDERS, SIZE, name)
}

// The step up from a node. It leads to a lower node or ends.
pub fn step_up(index: &[u32], node: usize) -> Parent
    ensures { result ≡ parent_at index.now node }
{
    match owner(index, node) {
        owner @ 65536..131072 => Parent::Definition(owner - 65536),
        owner @ 131072..196608 if owner - 131072 < node => Parent::New(owner - 131072),
        owner @ 196608.. => {
            let branch = owner - 196608;
            let home = home(index, branch);
            if home < node {
                Parent::Branch(branch, home)
            } else {
                Parent::Nobody
            }
        }
        _ => Parent::Nobody,
    }
}

// The thread of a node.
pub fn node_thread(table: &[u16], index: &[u32], node: usize) -> usize
    ensures { Number (thread_at table.now index.now node) result }
{
    field4(table, 8, definition(index, node), 0)
}

// The thread of a branch.
pub fn branch_thread(table: &[u16], index: &[u32], branch: usize) -> usize
    ensures { Number (branch_thread_at table.now index.now branch) result }
{
    node_thread(table, index, home(index, branch))
}

// The thread of what binds a name; the count of threads where nothing does.
#[tactic(auto, unfolding(crate::specs::Index::binder_thread_in))]
pub fn name_thread(table: &[u16], index: &[u32], name: usize) -> usize
    ensures { Number (name_thread_at table.now index.now name) result }
{
    match binder(index, name) {
        ..65536 => word(table, 3),
        binder @ 65536..131072 => node_thread(table, index, binder - 65536),
        binder @ 131072..196608 => branch_thread(table, index, binder - 131072),
        binder => field4(table, 8, binder - 196608, 0),
    }
}

// Writes `count` numbers from `first` on, as far as `out` reaches, and returns how many there are.
fn write_span(first: usize, count: usize, out: &mut [u32]) -> usize
    requires { (first < 65536) × (count < 65536) }
    ensures { (result ≡ count) × (out.new ≡ sets out.old 0 (from first count)) }
{
    for i in 0..count {
        store(out, i, (first + i) as u32);
    }
    count
}

// Writes the names that a node holds, as far as `out` reaches, and returns how many there are. By recursion to the
// owner: the node number falls, since an owner lies below, so whatever words are lent it is at most 256 calls deep.
pub fn held_names(table: &[u16], index: &[u32], node: u8, out: &mut [u32]) -> usize
    ensures { HeldNames (held_at table.now index.now node) out.old result
        out.new }
{
    match step_up(index, node as usize) {
        Parent::Definition(d) => write_span(field4(table, 8, d, 2), field4(table, 8, d, 3), out),
        Parent::New(m) => {
            let count = held_names(table, index, m as u8, out);
            store(out, count, field3(table, 10, m, 1) as u32);
            count + 1
        }
        Parent::Branch(b, m) => {
            let count = held_names(table, index, m as u8, out);
            if branch_kind(table, b) == Some(BranchKind::Receive) {
                store(out, count, field4(table, 11, b, 2) as u32);
                return count + 1;
            }
            count
        }
        Parent::Nobody => 0,
    }
}
