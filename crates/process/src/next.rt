// The state after an open step, as words.
ghost use Rattle.std.specs.Prelude.{◌≡◌, ◌&&◌, [], map, ◌≤◌, ◌<◌, length};
ghost use Rattle.std.proofs.lemmas.List.Edits.{sets};
ghost use Rattle.std.proofs.Math.Seq.{slice};
ghost use Rattle.lists.specs.Lists.{pick, same, from, range};
ghost use Rattle.scheme.specs.Words.{publics, bounds, threads};
ghost use Rattle.scheme.specs.Kinds.{is_stop_node};
ghost use Rattle.scheme.specs.Scheme.{scheme};
ghost use Rattle.process.specs.Steps.{take, new_step, silent_step, communication, step_call};
ghost use Rattle.process.specs.StateWords.{state_of, value_at, value_words, state_words};
ghost use Rattle.scheme.specs.Words.{Number};
ghost use Rattle.process.specs.Inner.Values.{Valued};
ghost use Rattle.process.specs.Inner.Codes.{meant, Going};

use crate::labels::{Pair, Step};
use crate::threads::is_stop;
use crate::values::{value_of, write_numbered};
use lists::{store, word};
use scheme::fields::{field1, field3, field4};
use table::known::Known;

// Whether a name ends as its thread arrives at a node.
fn ends(known: &Known, thread: usize, node: usize, name: usize) -> bool
    ensures { result ≡ (is_stop_node ((scheme known.now.table.now).node node)
        && same ((scheme known.now.table.now).thread_of_name name) thread) }
{
    is_stop(known.table, node) && known.name_thread(name) == thread
}

// A name's value after a New, which takes a value that no word names.
fn value_after_new(known: &Known, state: &[u16], node: usize, name: usize) -> usize
    requires { Going known.now.table.now state.now (new_step node) }
    ensures { Valued
        ((take (scheme known.now.table.now) (new_step node) (state_of (scheme known.now.table.now) state.now)
        ).value name) result }
{
    let thread = known.node_thread(node);
    if ends(known, thread, field3(known.table, 10, node, 2), name) {
        return 65535;
    }
    if name == field3(known.table, 10, node, 1) {
        return word(known.table, 0) + word(known.table, 1);
    }
    value_of(known.table, state, name)
}

fn value_after_silent(known: &Known, state: &[u16], branch: usize, name: usize) -> usize
    requires { Going known.now.table.now state.now (silent_step branch) }
    ensures { Valued
        ((take (scheme known.now.table.now) (silent_step branch)
        (state_of (scheme known.now.table.now) state.now)).value name) result }
{
    let thread = known.branch_thread(branch);
    if ends(known, thread, field4(known.table, 11, branch, 3), name) {
        return 65535;
    }
    value_of(known.table, state, name)
}

// A name's value after a communication. The sent value is the one before any name ends.
fn value_after_meeting(
    known: &Known,
    state: &[u16],
    send: usize,
    receive: usize,
    name: usize,
) -> usize
    requires { Going known.now.table.now state.now (communication send receive) }
    ensures { Valued
        ((take (scheme known.now.table.now) (communication send receive)
        (state_of (scheme known.now.table.now) state.now)).value name) result }
{
    let sender = known.branch_thread(send);
    let receiver = known.branch_thread(receive);
    let sent = field4(known.table, 11, send, 3);
    if ends(known, sender, sent, name) {
        return 65535;
    }
    let received = field4(known.table, 11, receive, 3);
    if ends(known, receiver, received, name) {
        return 65535;
    }
    if name == field4(known.table, 11, receive, 2) {
        return value_of(known.table, state, field4(known.table, 11, send, 2));
    }
    value_of(known.table, state, name)
}

// A name's value after a call: the caller's names end, a formal has its argument's value.
fn value_after_call(known: &Known, state: &[u16], node: usize, name: usize) -> usize
    requires { Going known.now.table.now state.now (step_call node) }
    ensures { Valued
        ((take (scheme known.now.table.now) (step_call node) (state_of (scheme known.now.table.now) state.now)
        ).value name) result }
{
    let thread = known.node_thread(node);
    if known.name_thread(name) != thread {
        return value_of(known.table, state, name);
    }
    let called = field3(known.table, 10, node, 1);
    if is_stop(known.table, field4(known.table, 8, called, 1)) {
        return 65535;
    }
    let first = field4(known.table, 8, called, 2);
    if name < first {
        return 65535;
    }
    if name < first + field4(known.table, 8, called, 3) {
        return value_of(
            known.table,
            state,
            field1(
                known.table,
                12,
                field3(known.table, 10, node, 2) + (name - first),
            ),
        );
    }
    65535
}

// A name's value after a step.
fn value_after(known: &Known, state: &[u16], step: Step, name: usize) -> usize
    requires { Going known.now.table.now state.now (meant step) }
    ensures { Valued
        ((take (scheme known.now.table.now) (meant step) (state_of (scheme known.now.table.now) state.now)
        ).value name) result }
{
    match step {
        Step::New(n) => value_after_new(known, state, n, name),
        Step::Silent(b) => value_after_silent(known, state, b, name),
        Step::Communicate(p) => value_after_meeting(known, state, p.send, p.receive, name),
        Step::Call(n) => value_after_call(known, state, n, name),
    }
}

// Where a thread stands after it went to a node.
fn node_if(thread: usize, moved: usize, node: usize, before: usize) -> usize
    requires { (node < 65536) × (before < 65536) }
    ensures { Number (pick (same thread moved) node before) result }
{
    if thread == moved {
        return node;
    }
    before
}

// Where a thread stands after a step.
fn node_after(known: &Known, state: &[u16], step: Step, thread: usize) -> usize
    requires { Going known.now.table.now state.now (meant step) }
    ensures { Number
        ((take (scheme known.now.table.now) (meant step) (state_of (scheme known.now.table.now) state.now)
        ).node thread) result }
{
    let before = word(state, thread);
    match step {
        Step::New(n) => {
            let moved = known.node_thread(n);
            node_if(thread, moved, field3(known.table, 10, n, 2), before)
        }
        Step::Silent(b) => {
            let moved = known.branch_thread(b);
            node_if(thread, moved, field4(known.table, 11, b, 3), before)
        }
        Step::Communicate(p) => {
            let send = p.send;
            let receive = p.receive;
            let sender = known.branch_thread(send);
            let sent = node_if(thread, sender, field4(known.table, 11, send, 3), before);
            let receiver = known.branch_thread(receive);
            node_if(thread, receiver, field4(known.table, 11, receive, 3), sent)
        }
        Step::Call(n) => {
            let called = field3(known.table, 10, n, 1);
            let moved = known.node_thread(n);
            node_if(thread, moved, field4(known.table, 8, called, 1), before)
        }
    }
}

// Writes where each thread stands after a step.
fn write_nodes(known: &Known, state: &[u16], step: Step, out: &mut [u16])
    requires { Going known.now.table.now state.now (meant step) }
    ensures { out.new
        ≡ sets out.old 0
        (map (take (scheme known.now.table.now) (meant step)
        (state_of (scheme known.now.table.now) state.now)).node (range (threads known.now.table.now))) }
{
    let threads = word(known.table, 3);
    for t in 0..threads {
        store(out, t, node_after(known, state, step, t) as u16);
    }
}

// Fills in the value of each bound name after a step, 65535 where it has none.
fn fill_values(known: &Known, state: &[u16], step: Step, values: &mut [u16])
    requires { Going known.now.table.now state.now (meant step)
        × (32 ≤ length values.old) }
    ensures { map value_at (slice 0 (bounds known.now.table.now) values.new)
        ≡ map (take (scheme known.now.table.now) (meant step)
        (state_of (scheme known.now.table.now) state.now)).value
        (from (publics known.now.table.now) (bounds known.now.table.now)) }
{
    let publics = word(known.table, 0);
    let bounds = word(known.table, 1);
    for i in 0..bounds {
        store(
            values,
            i,
            value_after(known, state, step, publics + i) as u16,
        );
    }
}

// Writes the value of each bound name after a step, private values numbered by first appearance.
fn write_values(known: &Known, state: &[u16], step: Step, out: &mut [u16])
    requires { Going known.now.table.now state.now (meant step) }
    ensures { out.new
        ≡ sets out.old (threads known.now.table.now)
        (value_words (publics known.now.table.now) []
        (map (take (scheme known.now.table.now) (meant step)
        (state_of (scheme known.now.table.now) state.now)).value
        (from (publics known.now.table.now) (bounds known.now.table.now)))) }
{
    let publics = word(known.table, 0);
    let bounds = word(known.table, 1);
    let threads = word(known.table, 3);
    let mut values = [0u16; 32];
    fill_values(known, state, step, &mut values);
    write_numbered(publics as u16, &values, bounds as u16, threads as u16, out);
}

// Writes the words of the state after a step.
pub(crate) fn write_state(known: &Known, state: &[u16], step: Step, out: &mut [u16])
    requires { Going known.now.table.now state.now (meant step) }
    ensures { out.new
        ≡ sets out.old 0
        (state_words (scheme known.now.table.now)
        (take (scheme known.now.table.now) (meant step)
        (state_of (scheme known.now.table.now) state.now))) }
{
    write_nodes(known, state, step, out);
    write_values(known, state, step, out);
}
