// The index of a table: one list of 832 words, which say who owns each node, which node has each branch, which
// definition each node is in, and what binds each name; `lookup` reads it. An owner is a number: 65536 + a definition,
// 131072 + a New, 196608 + a branch, less than 65536 for nobody. So is what binds a name: 65536 + a New, 131072 + a
// receive, 196608 + a definition, less than 65536 for nothing.
ghost use Rattle.std.specs.Prelude.{◌≡◌, map, length, replicate};
ghost use Rattle.std.proofs.lemmas.List.Edits.{sets};
ghost use Rattle.lists.specs.Lists.{range};
ghost use Rattle.scheme.specs.Owners.{owner, home};
ghost use Rattle.scheme.specs.Scheme.{binder_of};
ghost use Rattle.scheme.specs.Index.{owner_number, binder_number, definitions_offset, definition_words};
ghost use Rattle.scheme.specs.Index.{FilledBodies, Filled};
ghost use Rattle.scheme.specs.Inner.Filling.{Standing, node_definition};

use crate::lookup::{Parent, definition, step_up};
use crate::spans::{Source, scatter_source};
use lists::{store, word};

// Where the homes, the definitions and the binders of an index begin, and its size; the owners begin at 0.
pub const HOMES: usize = 256;

pub const DEFINITIONS: usize = 512;

pub const BINDERS: usize = 768;

pub const SIZE: usize = 832;

// The owner of each node, as far as `out` reaches.
fn owners(table: &[u16], out: &mut [u32])
    ensures { out.new
        ≡ map (λ k. owner_number (owner table.now k)) (range (length out.old)) }
{
    out.fill(0);
    scatter_source(table, Source::NextNodes, word(table, 5), 196608, out);
    scatter_source(table, Source::NewChildren, word(table, 4), 131072, out);
    scatter_source(table, Source::Roots, word(table, 2), 65536, out);
}

// The node that has each branch, as far as `out` reaches.
fn homes(table: &[u16], out: &mut [u32])
    ensures { out.new ≡ map (home table.now) (range (length out.old)) }
{
    out.fill(0);
    scatter_source(table, Source::Branches, word(table, 4), 0, out);
}

// What binds each name, as far as `out` reaches.
fn binders(table: &[u16], out: &mut [u32])
    ensures { out.new
        ≡ map (λ x. binder_number (binder_of table.now x)) (range (length out.old)) }
{
    out.fill(0);
    scatter_source(table, Source::Formals, word(table, 2), 196608, out);
    scatter_source(table, Source::ReceivedNames, word(table, 5), 131072, out);
    scatter_source(table, Source::NewNames, word(table, 4), 65536, out);
}

// The definition of a node, by an index that has those of the nodes below it.
fn definition_word(index: &[u32], node: usize) -> u32
    ensures { result ≡ node_definition index.now node }
{
    match step_up(index, node) {
        Parent::Definition(d) => d as u32,
        Parent::New(m) => definition(index, m) as u32,
        Parent::Branch(_, m) => definition(index, m) as u32,
        Parent::Nobody => 0,
    }
}

// Fills in the definitions of an index that has the table's owners and homes, and 0 for each definition.
fn fill_definitions(table: &[u16], index: &mut [u32])
    requires { Standing table.now index.old }
    ensures { index.new
        ≡ sets index.old definitions_offset (definition_words table.now) }
{
    for n in 0..word(table, 4).min(256) {
        let d = definition_word(index, n);
        store(index, DEFINITIONS + n, d);
    }
}

// Fills in the index of a table up to the binders, and says whether there is room for it.
pub fn fill_bodies(table: &[u16], index: &mut [u32]) -> bool
    ensures { FilledBodies table.now index.old result index.new }
{
    if index.len() < BINDERS {
        return false;
    }
    owners(table, &mut index[..HOMES]);
    homes(table, &mut index[HOMES..DEFINITIONS]);
    index[DEFINITIONS..BINDERS].fill(0);
    fill_definitions(table, index);
    true
}

// Fills in the index of a table, and says whether there is room for it.
pub fn fill(table: &[u16], index: &mut [u32]) -> bool
    ensures { Filled table.now index.old result index.new }
{
    if index.len() < SIZE {
        return false;
    }
    fill_bodies(table, index);
    binders(table, &mut index[BINDERS..SIZE]);
    true
}
