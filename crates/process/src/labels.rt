// Labels, what they name, and whether a step is open.
ghost use Rattle.std.specs.Prelude.{◌≡◌, ◌&&◌};
ghost use Rattle.scheme.specs.Scheme.{scheme};
ghost use Rattle.scheme.specs.Kinds.{is_send};
ghost use Rattle.process.specs.Steps.{is_standing_at, is_step_open, communication};
ghost use Rattle.process.specs.Labels.{label_of, named_new, named_silent, named_call, named_communication, is_partner};
ghost use Rattle.process.specs.Labels.{named_copy, named_release, step_meaning, step_of, meaning_of};
ghost use Rattle.process.specs.StateWords.{state_of};
ghost use Rattle.process.specs.Inner.Codes.{meant, named, label_words, Labelled, opened, if_open};

use crate::formed::holds;
use crate::threads::{branch_is, node_is};
use crate::values::{one_value, value_of};
use lists::word;
use scheme::fields::{field3, field4};
use table::known::Known;

// The two branches of a communication.
#[derive(Clone, Copy)]
pub struct Pair {
    pub send: usize,
    pub receive: usize,
}

// A step: New and Call by their node, a silent step by its branch.
#[derive(Clone, Copy)]
pub enum Step {
    New(usize),
    Silent(usize),
    Communicate(Pair),
    Call(usize),
}

// The copy of a formal and the release of a name, by node and name.
#[derive(Clone, Copy)]
pub enum Bookkeeping {
    Copy(usize, usize),
    Release(usize, usize),
}

// What a label of the table names: bookkeeping or a step of the process.
#[derive(Clone, Copy)]
pub enum Named {
    Bookkeeping(Bookkeeping),
    Process(Step),
}

// A label: its kind and two numbers.
#[derive(Clone, Copy)]
pub struct Label {
    pub kind: u32,
    pub a: u32,
    pub b: u32,
}

// The label of a step of the table.
pub(crate) fn label_of(table: &[u16], step: Step) -> Label
    requires { Labelled (scheme table.now) (meant step) }
    ensures { label_words result ≡ label_of (scheme table.now) (meant step) }
{
    match step {
        Step::New(n) => Label {
            kind: 2,
            a: n as u32,
            b: field3(table, 10, n, 1) as u32,
        },
        Step::Silent(b) => Label {
            kind: 3,
            a: b as u32,
            b: 0,
        },
        Step::Communicate(p) => Label {
            kind: 4,
            a: p.send as u32,
            b: p.receive as u32,
        },
        Step::Call(n) => Label {
            kind: 5,
            a: n as u32,
            b: 0,
        },
    }
}

// A copy: the node is a Call, and the name a formal of the definition called.
fn copy_named(known: &Known, node: usize, name: usize) -> Option<Named>
    ensures { named result ≡ named_copy (scheme known.now.table.now) node name }
{
    if !node_is(known.table, node, 3) {
        return None;
    }
    let called = field3(known.table, 10, node, 1);
    let first = field4(known.table, 8, called, 2);
    let is_formal = first <= name && name < first + field4(known.table, 8, called, 3);
    is_formal.then_some(Named::Bookkeeping(Bookkeeping::Copy(node, name)))
}

// A release: the node is a Stop or a Call, and holds the name.
fn release_named(known: &Known, node: usize, name: usize) -> Option<Named>
    ensures { named result ≡ named_release (scheme known.now.table.now) node name }
{
    if node_is(known.table, node, 1) || node_is(known.table, node, 2) {
        return None;
    }
    holds(known, node, name).then_some(Named::Bookkeeping(Bookkeeping::Release(node, name)))
}

fn new_named(table: &[u16], node: usize, name: usize) -> Option<Named>
    ensures { named result
        ≡ step_meaning (named_new (scheme table.now) node name ((scheme table.now).node node)) }
{
    if !node_is(table, node, 2) {
        return None;
    }
    (name == field3(table, 10, node, 1)).then_some(Named::Process(Step::New(node)))
}

fn silent_named(table: &[u16], branch: usize, zero: usize) -> Option<Named>
    ensures { named result
        ≡ step_meaning
        (named_silent (scheme table.now) branch zero ((scheme table.now).branch branch)) }
{
    if !branch_is(table, branch, 0) {
        return None;
    }
    (zero == 0).then_some(Named::Process(Step::Silent(branch)))
}

fn call_named(table: &[u16], node: usize, zero: usize) -> Option<Named>
    ensures { named result
        ≡ step_meaning (named_call (scheme table.now) node zero ((scheme table.now).node node)) }
{
    if !node_is(table, node, 3) {
        return None;
    }
    (zero == 0).then_some(Named::Process(Step::Call(node)))
}

// Whether the branches are a send and a receive of different threads.
fn are_partners(known: &Known, send: usize, receive: usize) -> bool
    ensures { result ≡ (is_send ((scheme known.now.table.now).branch send)
        && is_partner (scheme known.now.table.now) send receive) }
{
    if !branch_is(known.table, send, 1) || !branch_is(known.table, receive, 2) {
        return false;
    }
    let sender = known.branch_thread(send);
    let receiver = known.branch_thread(receive);
    sender != receiver
}

fn communication_named(known: &Known, send: usize, receive: usize) -> Option<Named>
    ensures { named result ≡ step_meaning (named_communication (scheme known.now.table.now) send receive) }
{
    let step = Step::Communicate(Pair { send, receive });
    are_partners(known, send, receive).then_some(Named::Process(step))
}

// What a label names: its kind decides between bookkeeping and the steps of the process.
fn named_by(known: &Known, kind: u32, a: usize, b: usize) -> Option<Named>
    ensures { named result ≡ meaning_of (scheme known.now.table.now) kind a b }
{
    match kind {
        0 => copy_named(known, a, b),
        1 => release_named(known, a, b),
        2 => new_named(known.table, a, b),
        3 => silent_named(known.table, a, b),
        4 => communication_named(known, a, b),
        5 => call_named(known.table, a, b),
        _ => None,
    }
}

// Whether the node's thread stands at it.
pub(crate) fn stands(known: &Known, state: &[u16], node: usize) -> bool
    ensures { result ≡ is_standing_at (scheme known.now.table.now)
        (state_of (scheme known.now.table.now) state.now) node }
{
    let thread = known.node_thread(node);
    word(state, thread) == node
}

// Whether a send and a receive can meet: their threads differ and stand at them, and both channels have one value.
pub(crate) fn can_meet(known: &Known, state: &[u16], send: usize, receive: usize) -> bool
    ensures { result ≡ is_step_open (scheme known.now.table.now)
        (state_of (scheme known.now.table.now) state.now) (communication send receive) }
{
    are_partners(known, send, receive)
        && stands(known, state, known.home(send))
        && stands(known, state, known.home(receive))
        && one_value(
            value_of(known.table, state, field4(known.table, 11, send, 1)),
            value_of(known.table, state, field4(known.table, 11, receive, 1)),
        )
}

// Whether a step is open: its threads stand at its nodes, and for a communication both channels have one value.
fn is_open(known: &Known, state: &[u16], step: Step) -> bool
    ensures { result ≡ is_step_open (scheme known.now.table.now)
        (state_of (scheme known.now.table.now) state.now) (meant step) }
{
    match step {
        Step::New(n) => node_is(known.table, n, 2) && stands(known, state, n),
        Step::Silent(b) => branch_is(known.table, b, 0) && stands(known, state, known.home(b)),
        Step::Communicate(p) => can_meet(known, state, p.send, p.receive),
        Step::Call(n) => node_is(known.table, n, 3) && stands(known, state, n),
    }
}

// The step that a label names, if it is open.
pub(crate) fn open_step(known: &Known, state: &[u16], kind: u32, a: u32, b: u32) -> Option<Step>
    ensures { opened result
        ≡ if_open (scheme known.now.table.now) (state_of (scheme known.now.table.now) state.now)
        (step_of (scheme known.now.table.now) kind a b) }
{
    match named_by(known, kind, a as usize, b as usize) {
        Some(Named::Process(s)) => is_open(known, state, s).then_some(s),
        Some(Named::Bookkeeping(_)) => None,
        None => None,
    }
}
