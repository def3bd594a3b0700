// Reads and writes that are total: 0 past the end, and no write past the end.
#![tactic(auto)]

ghost use Rattle.std.specs.Prelude.{◌≡◌, ◌≤◌, ◌<◌, ℕ, List, [], ◌∷◌, length, set, slice_index_or};
ghost use Rattle.lists.specs.Lists.{Word};
ghost use Rattle.lists.specs.Words.{word_inside, word_past};

// An unsigned integer type whose values fit `usize`.
pub trait Unsigned: Copy {
    // The type's values lie below it.
    ghost limit: { ℕ };
    // The numbers of a list of the type's values.
    ghost numbers: { List Self → List ℕ };

    // The value as a number: that of a list of it alone.
    fn number(self) -> usize
        ensures { Word limit (numbers (self ∷ [])) 0 result };

    // An item's number is the number at its place.
    ghost inside: { (w : List Self) (i n : ℕ) (x : Self) → i < length w → x ≡ slice_index_or w i x
        → Word limit (numbers (x ∷ [])) 0 n → Word limit (numbers w) i n };
    // There is no number past the end.
    ghost past: { (w : List Self) (i : ℕ) → length w ≤ i → Word limit (numbers w) i 0 };
}

impl Unsigned for u8 {
    ghost limit = { 256 };

    ghost numbers = { λ w. w };

    fn number(self) -> usize {
        usize::from(self)
    }

    ghost inside = { word_inside 256 };

    ghost past = { word_past 255 };
}

impl Unsigned for u16 {
    ghost limit = { 65536 };

    ghost numbers = { λ w. w };

    fn number(self) -> usize {
        usize::from(self)
    }

    ghost inside = { word_inside 65536 };

    ghost past = { word_past 65535 };
}

impl Unsigned for u32 {
    ghost limit = { 4294967296 };

    ghost numbers = { λ w. w };

    fn number(self) -> usize {
        self as usize
    }

    ghost inside = { word_inside 4294967296 };

    ghost past = { word_past 4294967295 };
}

// Word i of a list, 0 past its end.
pub fn word<T: Unsigned>(words: &[T], i: usize) -> usize
    ensures { Word T.limit (T.numbers words.now) i result }
{
    if i < words.len() {
        return words[i].number();
    }
    0
}

// Writes v at i, and nothing past the end.
pub fn store<T: Copy>(out: &mut [T], i: usize, v: T)
    ensures { out.new ≡ set out.old i v }
{
    if i < out.len() {
        out[i] = v;
    }
}
