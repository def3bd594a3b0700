// The numbers in a set, one after the other.
ghost use Rattle.std.specs.Iterator.{at_most};
ghost use Rattle.places.specs.Sets.{TakesLowest};

// Gives the numbers of a set from the lowest up.
#[derive(Drop)]
pub struct Bits(pub u64);

impl Iterator for Bits {
    type Item = usize;

    ghost next_gives = { λ s r t. TakesLowest s.0 r t.0 };

    ghost remaining = { λ s. at_most s.0 };

    fn next(&mut self) -> Option<usize> {
        if self.0 == 0 {
            return None;
        }
        let lowest = self.0.trailing_zeros() as usize;
        self.0 &= self.0 - 1;
        Some(lowest)
    }
}
