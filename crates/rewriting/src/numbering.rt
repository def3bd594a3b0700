// The numbers that copies have: where a number stands among those copied.
//
// One array has the places, 257 words each: definitions from 0 on, names from 257, nodes from 514, branches from 771,
// arguments from 1028. The last word of each is the place of every number that is not there.
ghost use Rattle.std.specs.Prelude.{◌≡◌, ◌<◌, length};
ghost use Rattle.scheme.specs.Words.{Number};
ghost use Rattle.rewriting.specs.Rewriting.{copy_name_of};
ghost use Rattle.rewriting.specs.Inner.Copying.{originals_in};
ghost use Rattle.rewriting.specs.Inner.Placing.{place_found_at, start_of, entries_of, copy_of};
ghost use Rattle.rewriting.specs.Inner.Placing.{Numberable, Numbered, Listing, Places, Placing};

use crate::copies::{Counts, Part, originals};
use lists::{store, word};

// Where the places of a section start.
fn start(part: Part) -> usize
    ensures { result ≡ start_of part }
{
    match part {
        Part::Definitions => 0,
        Part::Names => 257,
        Part::Nodes => 514,
        Part::Branches => 771,
        Part::Arguments => 1028,
    }
}

// Writes, from `at` on, where each number below 257 stands among the originals, their count where it does not. The last
// of them goes first, so that the first place stays.
fn number(originals: &[u32], at: usize, out: &mut [u32])
    requires { Numberable originals.now at out.old }
    ensures { Numbered originals.now at out.old out.new }
{
    let count = originals.len();
    out[at..at + 257].fill(count as u32);
    for i in (0..count).rev() {
        store(out, at + word(originals, i), i as u32);
    }
}

// Writes the places of a section's copies.
fn number_part(list: &[u32], copies: Counts, part: Part, out: &mut [u32])
    requires { Listing list.now copies × (length out.old ≡ 1285) }
    ensures { Numbered (originals_in list.now copies part) (start_of part) out.old
        out.new }
{
    number(originals(list, copies, part), start(part), out);
}

// The places of all that is copied.
pub(crate) fn number_copies(list: &[u32], copies: Counts, out: &mut [u32])
    requires { Listing list.now copies × (length out.old ≡ 1285) }
    ensures { Places list.now copies out.new }
{
    number_part(list, copies, Part::Definitions, out);
    number_part(list, copies, Part::Names, out);
    number_part(list, copies, Part::Nodes, out);
    number_part(list, copies, Part::Branches, out);
    number_part(list, copies, Part::Arguments, out);
}

// The place of i among the originals of a section's copies.
fn place(places: &[u32], part: Part, i: usize) -> usize
    ensures { (result ≡ place_found_at places.now (start_of part) i) × (result < 4294967296) }
{
    let at = start(part);
    if i < 256 {
        return word(places, at + i);
    }
    word(places, at + 256)
}

// How many entries the table has in a section.
pub(crate) fn entries(table: &[u16], part: Part) -> usize
    ensures { (result ≡ entries_of table.now part) × (result < 131072) }
{
    match part {
        Part::Definitions => word(table, 2),
        Part::Names => word(table, 0) + word(table, 1),
        Part::Nodes => word(table, 4),
        Part::Branches => word(table, 5),
        Part::Arguments => word(table, 6),
    }
}

// The number of the copy of entry i of a section.
pub(crate) fn copied(table: &[u16], places: &[u32], part: Part, i: usize) -> usize
    requires { Placing table.now places.now }
    ensures { Number (copy_of table.now part i) result }
{
    entries(table, part) + place(places, part, i)
}

// The number of a name's copy; a public name has none.
pub(crate) fn copy_name(table: &[u16], places: &[u32], name: usize) -> usize
    requires { Placing table.now places.now }
    ensures { Number (copy_name_of table.now name) result }
{
    if name < word(table, 0) {
        return name;
    }
    copied(table, places, Part::Names, name)
}
