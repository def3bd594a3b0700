// Values of names in state words, and their numbering by first appearance.
ghost use Rattle.std.specs.Prelude.{◌≡◌, ◌≤◌, ◌<◌, length};
ghost use Rattle.std.proofs.Math.Seq.{slice};
ghost use Rattle.scheme.specs.Scheme.{scheme};
ghost use Rattle.process.specs.States.{is_one_value};
ghost use Rattle.process.specs.StateWords.{state_of, place, value_at, Numbered};
ghost use Rattle.process.specs.Inner.Values.{Valued, Numberable, Turned};

use lists::{store, word};

// The value of a name, 65535 where it has none.
pub(crate) fn value_of(table: &[u16], state: &[u16], name: usize) -> usize
    ensures { Valued ((state_of (scheme table.now) state.now).value name) result }
{
    let publics = word(table, 0);
    if name < publics {
        return name;
    }
    if name < publics + word(table, 1) {
        return word(state, word(table, 3) + (name - publics));
    }
    65535
}

// Whether two values are there and are one.
pub(crate) fn one_value(first: usize, second: usize) -> bool
    ensures { result ≡ is_one_value (value_at first) (value_at second) }
{
    first != 65535 && first == second
}

// Where a value stands among the first `count` values seen, `count` where it does not.
fn place_of(seen: &[u16], count: usize, value: usize) -> usize
    requires { count ≤ length seen.now }
    ensures { result ≡ place value (slice 0 count seen.now) }
{
    let place = seen[..count].iter().position(|x| *x as usize == value);
    place.unwrap_or(count)
}

// A value's word, and how many private values have been seen once it has.
#[derive(Clone, Copy)]
pub struct Turn {
    pub word: usize,
    pub count: usize,
}

// The word of a value after the first `count` values seen; a private value that is new is noted.
fn number(publics: usize, seen: &mut [u16], count: usize, value: usize) -> Turn
    requires { Numberable publics seen.old count value }
    ensures { Turned publics seen.old count value seen.new result.word result.count }
{
    if value == 65535 {
        return Turn { word: 65535, count };
    }
    if value < publics {
        return Turn { word: value, count };
    }
    let place = place_of(seen, count, value);
    if place == count {
        store(seen, count, value as u16);
        return Turn {
            word: publics + place,
            count: count + 1,
        };
    }
    Turn {
        word: publics + place,
        count,
    }
}

// Writes the words of the first `count` values from word `at` on, private values numbered by first appearance; 65535
// stands for none. Whether publics and values are few and all lent; else nothing is written.
pub fn write_numbered(publics: u16, values: &[u16], count: u16, at: u16, out: &mut [u16]) -> bool
    ensures { Numbered publics values.now count at out.old result out.new }
{
    if 32 < publics || 32 < count || values.len() < count as usize {
        return false;
    }
    let mut seen = [0u16; 32];
    let mut noted = 0;
    for i in 0..count as usize {
        let turn = number(publics as usize, &mut seen, noted, word(values, i));
        store(out, at as usize + i, turn.word as u16);
        noted = turn.count;
    }
    true
}
