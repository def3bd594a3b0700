// Sets of transitions in 64-bit words: a bit is read, put in or taken out.
ghost use Rattle.std.specs.Prelude.{◌≡◌, ℕ, ◌^◌, ◌<◌, length};
ghost use Rattle.lists.specs.Lists.{pick, same};
ghost use Rattle.summary.specs.Sets.{has_bit, is_in_set, with_bit_set};

// Bit k of a word.
fn bit_of(word: u64, k: u32) -> bool
    requires { k < 64 }
    ensures { result ≡ has_bit word k }
{
    (word >> k) % 2 == 1
}

// Whether a transition is in the set; none past its words is.
pub fn is_in(enabled: &[u64], transition: usize) -> bool
    ensures { result ≡ is_in_set enabled.now transition }
{
    let i = transition / 64;
    if enabled.len() <= i {
        return false;
    }
    bit_of(enabled[i], (transition % 64) as u32)
}

// The word with bit k set, or without it.
fn with_bit(word: u64, k: u32, on: bool) -> u64
    requires { k < 64 }
    ensures { (result < 2 ^ 64) × ((j : ℕ) → has_bit result j ≡ pick (same j k) on (has_bit word j)) }
{
    if on {
        return word | 1u64 << k;
    }
    if bit_of(word, k) {
        return word - (1u64 << k);
    }
    word
}

// Puts a transition into the set, or takes it out; one past its words is passed over.
pub fn put_bit(enabled: &mut [u64], transition: usize, on: bool)
    ensures { enabled.new ≡ with_bit_set enabled.old transition on }
{
    let i = transition / 64;
    if enabled.len() <= i {
        return;
    }
    let word = enabled[i];
    enabled[i] = with_bit(word, (transition % 64) as u32, on);
}
