// The definition that each bound name belongs to.
ghost use Rattle.std.specs.Prelude.{◌≡◌, length};
ghost use Rattle.rewriting.specs.Inner.Belonging.{name_definition_at, NamesBelong, Spared};

use lists::{store, word};
use scheme::lookup::{binder, definition, home};

// The definition of what binds a name; the count of definitions where nothing does.
fn name_definition(table: &[u16], index: &[u32], name: usize) -> usize
    ensures { result ≡ name_definition_at table.now index.now name }
{
    let binder = binder(index, name);
    if binder < 65536 {
        return word(table, 2);
    }
    if binder < 131072 {
        return definition(index, binder - 65536);
    }
    if binder < 196608 {
        return definition(index, home(index, binder - 131072));
    }
    binder - 196608
}

// The definition of each bound name, at the name's number.
pub(crate) fn name_definitions(table: &[u16], index: &[u32], out: &mut [u32])
    requires { Spared table.now index.now × (length out.old ≡ 64) }
    ensures { NamesBelong table.now out.new }
{
    let publics = word(table, 0);
    let end = publics + word(table, 1);
    for x in publics..end {
        let d = name_definition(table, index, x);
        store(out, x, d as u32);
    }
}
