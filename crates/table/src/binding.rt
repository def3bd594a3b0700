// Cause 7: every bound name bound once, by a binder of its own kind.
ghost use Rattle.std.specs.Prelude.{◌≡◌, ◌-◌, ◌≤◌, ◌<◌};
ghost use Rattle.lists.specs.Lists.{same, word, bit, from, range, every, flat};
ghost use Rattle.scheme.specs.Words.{publics, bounds, names, name_kind_of};
ghost use Rattle.table.specs.Causes.{bound_right, is_binding_right};
ghost use Rattle.scheme.specs.Spans.{span_of};

use lists::word;
use scheme::fields::name_kind;
use scheme::spans::{Source, tally_source};

// Whether every bound name of the kind is bound once by the first n entries, and no name of another kind.
fn kind_bound(table: &[u16], source: Source, n: usize, kind: usize) -> bool
    requires { names table.now ≤ 64 }
    ensures { result ≡ every
        (bound_right table.now (flat (span_of table.now source) (range n)) kind)
        (from (publics table.now) (bounds table.now)) }
{
    let mut counts = [0u8; 64];
    tally_source(table, source, n, &mut counts);
    let publics = word(table, 0);
    (publics..publics + word(table, 1)).all(|x| word(&counts, x)
        == usize::from(name_kind(table, x) == kind))
}

pub(crate) fn binding_right(table: &[u16]) -> bool
    requires { names table.now ≤ 64 }
    ensures { result ≡ is_binding_right table.now }
{
    kind_bound(table, Source::NewNames, word(table, 4), 0)
        && kind_bound(table, Source::ReceivedNames, word(table, 5), 1)
        && kind_bound(table, Source::Formals, word(table, 2), 2)
}
