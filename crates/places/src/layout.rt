// Where places stand: control places of nodes, [*≠n], and how many there are.
ghost use Rattle.std.specs.Prelude.{◌≡◌, ◌+◌, ◌<◌, ◌≤◌, not, ◌&&◌, ◌++◌, length, drop};
ghost use Rattle.std.proofs.lemmas.List.Edits.{sets};
ghost use Rattle.lists.specs.Lists.{word, same};
ghost use Rattle.scheme.specs.Words.{bounds, nodes};
ghost use Rattle.scheme.specs.Scheme.{scheme};
ghost use Rattle.table.specs.Causes.{cause};
ghost use Rattle.table.specs.Known.{Known};
ghost use Rattle.places.specs.Plan.{nodes_offset, plan_end, node_word, node_words, plan_words};
ghost use Rattle.places.specs.Plan.{restricted_in, Reached};
ghost use Rattle.places.specs.Inner.Holding.{HeldBelow};
ghost use Rattle.places.specs.Inner.Plan.{control_of, free_names_word, read_names_word};

use crate::lookup::{FREE, NODES, PLACES, PRIVATES, TOKENS};
use crate::privates::{hold_all, private_values};
use crate::reach::{has_privates, reach_of};
use crate::rounds::fill_reaches;
use crate::row::places_with;
use lists::{store, word};
use scheme::fields::{field1, field3, field4, name_kind};

// Whether a name is restricted.
pub(crate) fn is_restricted(table: &[u16], name: usize) -> bool
    ensures { result ≡ (scheme table.now).restricted name }
{
    let publics = word(table, 0);
    publics <= name && name < publics + word(table, 1) && field1(table, 7, name - publics) == 0
}

// How many control places a node has that holds so many names: so far from their start those of the next node start.
fn control_count(table: &[u16], node: usize, held: usize) -> usize
    requires { (cause table.now ≡ 0) × (node < nodes table.now)
        × (held ≡ length ((scheme table.now).held node)) }
    ensures { (node_word table.now (node + 1) ≡ node_word table.now node + result) × (result ≤ 65) }
{
    let kind = field3(table, 10, node, 0);
    if kind == 0 {
        return 1 + held;
    }
    if kind == 3 {
        let formals = field4(table, 8, field3(table, 10, node, 1), 3);
        return 1 + formals + held;
    }
    1
}

// Fills in where the control places of each node start, from `first` on, past the nodes where they end, and returns
// that; `held` has how many names each node holds.
fn fill_nodes(table: &[u16], held: &[u32], first: usize, index: &mut [u32]) -> usize
    requires { (cause table.now ≡ 0) × HeldBelow (scheme table.now) (nodes table.now) held.now
        × (first ≡ control_of table.now 0) × (plan_end ≤ length index.old) }
    ensures { (result ≡ control_of table.now (nodes table.now))
        × (index.new ≡ sets index.old nodes_offset (node_words table.now)) }
{
    let count = word(table, 4);
    let mut at = first;
    for n in 0..count {
        store(index, NODES + n, at as u32);
        at += control_count(table, n, word(held, n));
    }
    index[NODES + count..PRIVATES].fill(at as u32);
    at
}

// How many bound names are not restricted.
pub(crate) fn free_names(table: &[u16]) -> usize
    ensures { (result ≡ free_names_word table.now) × (result ≤ bounds table.now) }
{
    let publics = word(table, 0);
    (publics..publics + word(table, 1))
        .filter(|&x| name_kind(table, x) != 0)
        .count()
}

// Whether a bound name has places [x≠n]: it is not restricted, and a restricted name is in its reach.
pub fn is_read(table: &[u16], index: &[u32], name: usize) -> bool
    ensures { result ≡ (not ((scheme table.now).restricted name)
        && not (same (word (restricted_in index.now) name) 0)) }
{
    !is_restricted(table, name) && has_privates(reach_of(index, name))
}

// How many bound names that are not restricted may hold private values.
pub(crate) fn reading_names(table: &[u16], index: &[u32]) -> usize
    requires { Reached table.now index.now }
    ensures { (result ≡ read_names_word table.now) × (result ≤ bounds table.now) }
{
    let publics = word(table, 0);
    (publics..publics + word(table, 1))
        .filter(|&x| is_read(table, index, x))
        .count()
}

// Fills in what the plan has behind the index.
pub(crate) fn lay_out(table: &[u16], index: &mut [u32])
    requires { Known table.now index.old × (plan_end ≤ length index.old) }
    ensures { index.new ≡ plan_words table.now ++ drop plan_end index.old }
{
    let mut held = [0u32; 256];
    hold_all(table, index, &mut held);
    let privates = private_values(table, index, &held);
    fill_reaches(table, index);
    let names = word(table, 0) + word(table, 1);
    let free = places_with(table, index, privates as u32, 0, names);
    let places = fill_nodes(table, &held, free + privates, index);
    let tokens = reading_names(table, index) * privates + privates + word(table, 3);
    store(index, PRIVATES, privates as u32);
    store(index, FREE, free as u32);
    store(index, PLACES, places as u32);
    store(index, TOKENS, tokens as u32);
}
