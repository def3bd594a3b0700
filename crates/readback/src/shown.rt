// The state that a marking shows: where threads stand, and the values of names.
ghost use Rattle.std.specs.Prelude.{◌≡◌, [], map, suc, ◌≤◌, ◌<◌, length};
ghost use Rattle.std.proofs.lemmas.List.Edits.{sets};
ghost use Rattle.std.proofs.Math.Seq.{slice};
ghost use Rattle.lists.specs.Lists.{from, range};
ghost use Rattle.scheme.specs.Words.{publics, bounds, threads, Number};
ghost use Rattle.table.specs.Causes.{cause};
ghost use Rattle.table.specs.Known.{Known};
ghost use Rattle.scheme.specs.Scheme.{scheme};
ghost use Rattle.process.specs.States.{value_of};
ghost use Rattle.process.specs.StateWords.{value_words};
ghost use Rattle.process.specs.Inner.Values.{Valued, value_at};
ghost use Rattle.readback.specs.Configurations.{spot, shown_node_of, name_shown_at, shown_name};
ghost use Rattle.readback.specs.Inner.Showing.{AtNodes, spot_at, value_found_in, NodeOf, CallOf};
ghost use Rattle.readback.specs.Inner.Holding.{IsName};

use lists::{store, word};
use process::values::write_numbered;
use scheme::fields::{field1, field3, field4};
use scheme::lookup::name_thread;

// The node that control place k of a node shows: in a call's chain the root of the definition called.
fn node_shown(table: &[u16], node: usize, k: usize) -> usize
    requires { NodeOf table.now node }
    ensures { Number (shown_node_of (scheme table.now) (spot node k)) result }
{
    if k != 0 && field3(table, 10, node, 0) == 3 {
        return field4(table, 8, field3(table, 10, node, 1), 1);
    }
    node
}

// Writes the node of each thread.
pub(crate) fn write_nodes(table: &[u16], nodes: &[u32], indexes: &[u32], state: &mut [u16])
    requires { (cause table.now ≡ 0) × AtNodes table.now nodes.now }
    ensures { state.new
        ≡ sets state.old 0
        (map (λ t. shown_node_of (scheme table.now) (spot_at nodes.now indexes.now t))
        (range (threads table.now))) }
{
    let threads = word(table, 3);
    for t in 0..threads {
        store(
            state,
            t,
            node_shown(table, word(nodes, t), word(indexes, t)) as u16,
        );
    }
}

// The name whose value a formal or another name has in a call's chain, 65535 where it has none: the formal itself once
// it is copied, its argument before.
fn name_called(table: &[u16], node: usize, copied: usize, name: usize) -> usize
    requires { CallOf table.now node name }
    ensures { Valued
        (name_shown_at (scheme table.now) ((scheme table.now).node node) node (suc copied) name)
        result }
{
    let d = field3(table, 10, node, 1);
    if field3(table, 10, field4(table, 8, d, 1), 0) == 0 {
        return 65535;
    }
    let first = field4(table, 8, d, 2);
    if name < first {
        return 65535;
    }
    let place = name - first;
    if field4(table, 8, d, 3) <= place {
        return 65535;
    }
    if place < copied {
        return name;
    }
    field1(table, 12, field3(table, 10, node, 2) + place)
}

// The kind of a Stop.
const STOP: usize = 0;

// The name whose value a name has where its thread stands at control place k of a node, 65535 where it has none.
fn name_shown(table: &[u16], node: usize, k: usize, name: usize) -> usize
    requires { NodeOf table.now node × (name < 65535) }
    ensures { Valued
        (name_shown_at (scheme table.now) ((scheme table.now).node node) node k name) result }
{
    let kind = field3(table, 10, node, 0);
    if kind == STOP {
        return 65535;
    }
    if kind != 3 || k == 0 {
        return name;
    }
    name_called(table, node, k - 1, name)
}

// The value of a name that may be missing, 65535 where it has none.
fn value_of(table: &[u16], values: &[u16], name: usize) -> usize
    ensures { Valued (value_of (value_found_in table.now values.now) (value_at name)) result }
{
    if name == 65535 {
        return 65535;
    }
    if name < word(table, 0) {
        return name;
    }
    word(values, name)
}

// The value that the state has for a bound name, 65535 where it has none.
fn name_value(
    table: &[u16],
    index: &[u32],
    nodes: &[u32],
    indexes: &[u32],
    values: &[u16],
    name: usize,
) -> usize
    requires { Known table.now index.now × AtNodes table.now nodes.now × IsName table.now name }
    ensures { Valued
        (value_of (value_found_in table.now values.now)
        (shown_name (scheme table.now) (spot_at nodes.now indexes.now) name)) result }
{
    let t = name_thread(table, index, name);
    let shown = name_shown(table, word(nodes, t), word(indexes, t), name);
    value_of(table, values, shown)
}

// Fills in the value of each bound name.
fn fill_values(
    table: &[u16],
    index: &[u32],
    nodes: &[u32],
    indexes: &[u32],
    values: &[u16],
    list: &mut [u16],
)
    requires { Known table.now index.now × AtNodes table.now nodes.now × (32 ≤ length list.old) }
    ensures { map value_at (slice 0 (bounds table.now) list.new)
        ≡ map (λ x. value_of (value_found_in table.now values.now)
        (shown_name (scheme table.now) (spot_at nodes.now indexes.now) x))
        (from (publics table.now) (bounds table.now)) }
{
    let publics = word(table, 0);
    let bounds = word(table, 1);
    for i in 0..bounds {
        store(
            list,
            i,
            name_value(table, index, nodes, indexes, values, publics + i) as u16,
        );
    }
}

// Writes the value of each bound name, private values numbered by first appearance.
pub(crate) fn write_values(
    table: &[u16],
    index: &[u32],
    nodes: &[u32],
    indexes: &[u32],
    values: &[u16],
    state: &mut [u16],
)
    requires { Known table.now index.now × AtNodes table.now nodes.now }
    ensures { state.new
        ≡ sets state.old (threads table.now)
        (value_words (publics table.now) []
        (map (λ x. value_of (value_found_in table.now values.now)
        (shown_name (scheme table.now) (spot_at nodes.now indexes.now) x))
        (from (publics table.now) (bounds table.now)))) }
{
    let publics = word(table, 0);
    let bounds = word(table, 1);
    let threads = word(table, 3);
    let mut list = [0u16; 32];
    fill_values(table, index, nodes, indexes, values, &mut list);
    write_numbered(publics as u16, &list, bounds as u16, threads as u16, state);
}
