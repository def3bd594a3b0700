// The values that a name may have, gone through from the first on: one by one, or in runs of values that follow one
// another.
ghost use Rattle.std.specs.Prelude.{◌≡◌, ◌<◌, length};
ghost use Rattle.lists.specs.Lists.{same, word};
ghost use Rattle.builder.specs.Inner.Spans.{values_in, Narrow, Fits, ByReach, Run, Behind};

use places::reach::{Reach, has_privates};

// The public names of a set, then the private values from `low` up to `end`.
#[derive(Clone, Copy)]
pub struct Values {
    pub set: u64,
    pub low: usize,
    pub end: usize,
}

// Values that follow one another: the first, and how many they are.
#[derive(Clone, Copy)]
pub struct Span {
    pub low: usize,
    pub count: usize,
}

// Of `publics` public names those in the reach, and all of `privates` private values where it has a restricted name.
pub(crate) fn values_of(publics: usize, privates: usize, reach: Reach) -> Values
    requires { Fits publics privates reach }
    ensures { ByReach publics privates reach result }
{
    let end = if has_privates(reach) {
        publics + privates
    } else {
        publics
    };
    Values {
        set: reach.publics,
        low: publics,
        end,
    }
}

// Whether there is no value.
pub(crate) fn is_none(x: Values) -> bool
    requires { Narrow x }
    ensures { result ≡ same (length (values_in x)) 0 }
{
    x.set == 0 && x.low == x.end
}

// The first value.
pub(crate) fn first_value(x: Values) -> usize
    requires { Narrow x × (0 < length (values_in x)) }
    ensures { result ≡ word (values_in x) 0 }
{
    if x.set != 0 {
        return x.set.trailing_zeros() as usize;
    }
    x.low
}

// The values behind the first.
pub(crate) fn behind_one(x: Values) -> Values
    requires { Narrow x × (0 < length (values_in x)) }
    ensures { Behind x 1 result }
{
    if x.set != 0 {
        return Values {
            set: x.set & (x.set - 1),
            ..x
        };
    }
    Values {
        set: 0,
        low: x.low + 1,
        ..x
    }
}

// The first run.
pub(crate) fn first_run(x: Values) -> Span
    requires { Narrow x × (0 < length (values_in x)) }
    ensures { Run x result }
{
    let set = x.set;
    if set != 0 {
        let low = set.trailing_zeros() as usize;
        return Span {
            low,
            count: ((set >> low) + 1).trailing_zeros() as usize,
        };
    }
    Span {
        low: x.low,
        count: x.end - x.low,
    }
}

// The values behind the first run.
pub(crate) fn behind(x: Values, s: Span) -> Values
    requires { Narrow x × Run x s }
    ensures { Behind x s.count result }
{
    if x.set != 0 {
        let to = s.low + s.count;
        return Values {
            set: (x.set >> to) << to,
            ..x
        };
    }
    Values {
        set: 0,
        low: x.end,
        ..x
    }
}
