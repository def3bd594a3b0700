// Cause 18: whether words are a state's.
ghost use Rattle.std.specs.Prelude.{◌≡◌, not, ◌||◌, ◌<◌};
ghost use Rattle.std.proofs.Math.Seq.{slice};
ghost use Rattle.lists.specs.Lists.{same, every, from, range, member};
ghost use Rattle.scheme.specs.Words.{publics, bounds, threads};
ghost use Rattle.scheme.specs.Scheme.{scheme};
ghost use Rattle.process.specs.States.{is_one_value};
ghost use Rattle.process.specs.StateWords.{state_of, state_words, holds_at, is_node_right, is_name_right, is_restricted_right};
ghost use Rattle.process.specs.StateWords.{same_list, is_well_formed};
ghost use Rattle.process.specs.Inner.Sized.{Sized};
ghost use Rattle.process.specs.Inner.Values.{next_seen_of};

use crate::threads::is_stop;
use crate::values::{one_value, value_of};
use lists::word;
use scheme::fields::name_kind;
use scheme::lookup::held_names;
use table::known::Known;

// Whether a node holds a name.
pub(crate) fn holds(known: &Known, node: usize, name: usize) -> bool
    ensures { result ≡ member name ((scheme known.now.table.now).held node) }
{
    if word(known.table, 4) <= node {
        return false;
    }
    let mut names = [0u32; 64];
    let count = held_names(known.table, known.index, node as u8, &mut names);
    names[..count].iter().any(|x| *x as usize == name)
}

// Whether a name is to have a value in the state: its thread's node holds it, and is no Stop.
fn is_held(known: &Known, state: &[u16], name: usize) -> bool
    ensures { result ≡ holds_at (scheme known.now.table.now)
        (state_of (scheme known.now.table.now) state.now) name }
{
    let node = word(state, known.name_thread(name));
    !is_stop(known.table, node) && holds(known, node, name)
}

// Whether a name has a value just where it is to have one, and the value is not too large.
fn name_right(known: &Known, state: &[u16], name: usize) -> bool
    ensures { result ≡ is_name_right (scheme known.now.table.now)
        (state_of (scheme known.now.table.now) state.now) name }
{
    let value = value_of(known.table, state, name);
    let held = is_held(known, state, name);
    if value == 65535 {
        return !held;
    }
    held && value < word(known.table, 0) + word(known.table, 1)
}

fn names_right(known: &Known, state: &[u16]) -> bool
    ensures { result ≡ every
        (is_name_right (scheme known.now.table.now) (state_of (scheme known.now.table.now) state.now))
        (from (publics known.now.table.now) (bounds known.now.table.now)) }
{
    let first = word(known.table, 0);
    let end = first + word(known.table, 1);
    (first..end).all(|x| name_right(known, state, x))
}

// Whether a thread stands at a node of its own.
fn node_right(known: &Known, state: &[u16], thread: usize) -> bool
    ensures { result ≡ is_node_right (scheme known.now.table.now)
        (state_of (scheme known.now.table.now) state.now) thread }
{
    let node = word(state, thread);
    node < word(known.table, 4) && known.node_thread(node) == thread
}

fn nodes_right(known: &Known, state: &[u16]) -> bool
    ensures { result ≡ every
        (is_node_right (scheme known.now.table.now) (state_of (scheme known.now.table.now) state.now))
        (range (threads known.now.table.now)) }
{
    let threads = word(known.table, 3);
    (0..threads).all(|t| node_right(known, state, t))
}

// How many private values have appeared once `value` has, if it is numbered by first appearance.
fn next_seen(publics: usize, seen: usize, value: usize) -> Option<usize>
    requires { (publics < 65536) × (seen < 65536) }
    ensures { result ≡ next_seen_of publics seen value }
{
    if value == 65535 || value < publics + seen {
        return Some(seen);
    }
    (value == publics + seen).then_some(seen + 1)
}

// Whether the private values are numbered by first appearance.
fn is_numbered(table: &[u16], state: &[u16]) -> bool
    requires { Sized table.now state.now }
    ensures { result ≡ same_list (scheme table.now)
        (state_words (scheme table.now) (state_of (scheme table.now) state.now))
        state.now }
{
    let publics = word(table, 0);
    let threads = word(table, 3);
    let bounds = word(table, 1);
    let mut seen = 0;
    for i in 0..bounds {
        let Some(next) = next_seen(publics, seen, word(state, threads + i)) else {
            return false;
        };
        seen = next;
    }
    true
}

fn is_restricted(table: &[u16], name: usize) -> bool
    ensures { result ≡ (scheme table.now).restricted name }
{
    let publics = word(table, 0);
    publics <= name && name < publics + word(table, 1) && name_kind(table, name) == 0
}

// Whether two names are one, or do not both have one value, or the second is not restricted.
fn is_apart(table: &[u16], state: &[u16], name: usize, other: usize) -> bool
    ensures { result ≡ (not ((scheme table.now).restricted other) ||
        (same name other || not
        (is_one_value ((state_of (scheme table.now) state.now).value name)
        ((state_of (scheme table.now) state.now).value other)))) }
{
    !is_restricted(table, other)
        || name == other
        || !one_value(value_of(table, state, name), value_of(table, state, other))
}

fn is_unshared(table: &[u16], state: &[u16], name: usize) -> bool
    ensures { result ≡ every
        (λ y. not ((scheme table.now).restricted y) ||
        (same name y || not (is_one_value ((state_of (scheme table.now) state.now).value name)
        ((state_of (scheme table.now) state.now).value y))))
        (from (publics table.now) (bounds table.now)) }
{
    let first = word(table, 0);
    let end = first + word(table, 1);
    (first..end).all(|y| is_apart(table, state, name, y))
}

// Whether a name, if restricted, has a private value that no other restricted name has.
fn restricted_right(table: &[u16], state: &[u16], name: usize) -> bool
    ensures { result ≡ is_restricted_right (scheme table.now)
        (state_of (scheme table.now) state.now) name }
{
    !is_restricted(table, name)
        || word(table, 0) <= value_of(table, state, name) && is_unshared(table, state, name)
}

fn all_restricted_right(table: &[u16], state: &[u16]) -> bool
    ensures { result ≡ every
        (is_restricted_right (scheme table.now) (state_of (scheme table.now) state.now))
        (from (publics table.now) (bounds table.now)) }
{
    let first = word(table, 0);
    let end = first + word(table, 1);
    (first..end).all(|x| restricted_right(table, state, x))
}

// Whether the words are a state's: their length, the nodes, the names, the numbering, and last the restricted names.
pub(crate) fn well_formed(known: &Known, state: &[u16]) -> bool
    ensures { result ≡ is_well_formed (scheme known.now.table.now) state.now }
{
    state.len() == word(known.table, 3) + word(known.table, 1)
        && nodes_right(known, state)
        && names_right(known, state)
        && is_numbered(known.table, state)
        && all_restricted_right(known.table, state)
}
