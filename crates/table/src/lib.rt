// The process table: causes 1 to 9 of a list of words. `check` refuses or accepts it.
#![tactic(auto)]

mod binding;
mod calls;
mod kinds;
pub mod known;
mod ranges;
mod scope;
mod shape;

ghost use Rattle.std.specs.Prelude.{◌≡◌, ◌<◌};
ghost use Rattle.table.specs.Answer.{cause_of, cause_number};
ghost use Rattle.table.specs.Causes.{cause, cause_sparing, are_counts_right, is_layout_right};

use lists::word;

// What a table is refused for.
#[derive(Clone, Copy, Debug, PartialEq, Eq)]
pub enum Cause {
    Short,
    Counts,
    Layout,
    Kinds,
    Ranges,
    Shape,
    Binding,
    Scope,
    Calls,
}

impl From<Cause> for usize {
    ghost from_gives = { λ cause number. (number ≡ cause_number cause) × (number < 10) };

    fn from(cause: Cause) -> usize {
        match cause {
            Cause::Short => 1,
            Cause::Counts => 2,
            Cause::Layout => 3,
            Cause::Kinds => 4,
            Cause::Ranges => 5,
            Cause::Shape => 6,
            Cause::Binding => 7,
            Cause::Scope => 8,
            Cause::Calls => 9,
        }
    }
}

// The first cause, in number order, that applies to the words.
#[tactic(auto, unfolding(crate::specs::Causes::cause))]
pub fn check(table: &[u16]) -> Result<(), Cause>
    ensures { cause_of result ≡ cause table.now }
{
    check_sparing(table, false)
}

// The same, with self-calls spared or not.
#[tactic(auto, unfolding(crate::specs::Causes::cause_sparing, crate::specs::Causes::first_failed, crate::specs::Causes::long_enough))]
pub fn check_sparing(table: &[u16], spared: bool) -> Result<(), Cause>
    ensures { cause_of result ≡ cause_sparing table.now spared }
{
    if table.len() < 13 {
        return Err(Cause::Short);
    }
    if !counts_right(table) {
        return Err(Cause::Counts);
    }
    if !layout_right(table) {
        return Err(Cause::Layout);
    }
    if !kinds::kinds_right(table) {
        return Err(Cause::Kinds);
    }
    if !ranges::ranges_right(table) {
        return Err(Cause::Ranges);
    }
    if !shape::shape_right(table) {
        return Err(Cause::Shape);
    }
    if !binding::binding_right(table) {
        return Err(Cause::Binding);
    }
    if !scope::scope_right(table) {
        return Err(Cause::Scope);
    }
    if !calls::calls_right(table, spared) {
        return Err(Cause::Calls);
    }
    Ok(())
}

// Cause 2: whether each count is within its bound.
#[tactic(auto, unfolding(crate::specs::Causes::are_counts_right))]
fn counts_right(table: &[u16]) -> bool
    ensures { result ≡ are_counts_right table.now }
{
    let publics = word(table, 0);
    let bounds = word(table, 1);
    let definitions = word(table, 2);
    let threads = word(table, 3);
    let nodes = word(table, 4);
    let branches = word(table, 5);
    let arguments = word(table, 6);
    publics <= 32
        && bounds <= 32
        && definitions <= 32
        && 1 <= threads
        && threads <= 8
        && 1 <= nodes
        && nodes <= 256
        && branches <= 256
        && arguments <= 256
}

// Cause 3: whether the offsets and the length are as the counts give. Sums of words do not wrap.
#[tactic(auto, unfolding(lists::specs::Lists::same, crate::specs::Causes::is_layout_right))]
fn layout_right(table: &[u16]) -> bool
    ensures { result ≡ is_layout_right table.now }
{
    let names = word(table, 7);
    let definitions = word(table, 8);
    let threads = word(table, 9);
    let nodes = word(table, 10);
    let branches = word(table, 11);
    let arguments = word(table, 12);
    names == 13
        && definitions == names + word(table, 1)
        && threads == definitions + 4 * word(table, 2)
        && nodes == threads + word(table, 3)
        && branches == nodes + 3 * word(table, 4)
        && arguments == branches + 4 * word(table, 5)
        && table.len() == arguments + word(table, 6)
}
