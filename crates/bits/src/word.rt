// Words of marks, of 32 bits and of 64, so that what is asked of a word is said once for both.
ghost use Rattle.std.specs.Prelude.{ℕ, ◌-◌, ◌≡◌, ◌^◌, ◌<◌, ◌≤◌};
ghost use Rattle.model.specs.Marks.{ones};
ghost use Rattle.model.specs.Word.{bits};
ghost use Rattle.std.proofs.Common.{rules};

pub trait Word: Copy {
    // How many bits a word has, and the number that they stand for.
    ghost width: { ℕ };

    ghost number: { Self → ℕ };

    // How many bits are set, by the language's count of ones.
    fn ones(self) -> u64
        ensures { result ≡ ones (bits width (number self)) };

    // The word with each bit the other way. The number has no more bits than the word.
    fn opposite(self) -> Self
        ensures turned { number result ≡ 2 ^ width - 1 - number self }
        ensures fits { number self < 2 ^ width };

    // The same number as a word of 64 bits.
    fn wide(self) -> u64
        ensures { result ≡ number self };

    ghost at_most_64: { width ≤ 64 };
}

impl Word for u64 {
    ghost width = { 64 };

    ghost number = { λ w. w };

    ghost at_most_64 = { Prim.search rules };

    fn ones(self) -> u64 {
        u64::count_ones(self) as u64
    }

    fn opposite(self) -> u64 {
        !self
    }

    fn wide(self) -> u64 {
        self
    }
}

impl Word for u32 {
    ghost width = { 32 };

    ghost number = { λ w. w };

    ghost at_most_64 = { Prim.search rules };

    fn ones(self) -> u64 {
        u32::count_ones(self) as u64
    }

    fn opposite(self) -> u32 {
        !self
    }

    fn wide(self) -> u64 {
        self as u64
    }
}
