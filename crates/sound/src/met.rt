// Which nodes have been met: a bit for each node, 64 to a word, and how many more may be met.
ghost use Rattle.std.specs.Prelude.{◌≡◌};
ghost use Rattle.sound.specs.Met.{Meets, none_met};

use bits::WORD_BITS;

// A bit for each of 1,024 nodes.
const MET_WORDS: usize = 16;

#[derive(Clone, Copy, Debug, PartialEq, Eq, Hash)]
pub struct Met {
    words: [u64; MET_WORDS],
    pub room: u64,
}

impl Met {
    // No node has been met, and so many may be.
    pub fn none(room: u64) -> Met
        ensures { result ≡ none_met room }
    {
        Met {
            words: [0; MET_WORDS],
            room,
        }
    }

    // Marks node n as met, and says whether it did. There has to be room for it, and it has not been met before; a
    // number for which there is no bit counts as met.
    pub fn meet(&mut self, n: u64) -> bool
        ensures { Meets self.old self.new n result }
    {
        if self.room == 0 {
            return false;
        }
        let at = (n / WORD_BITS) as usize;
        let Some(&word) = self.words.get(at) else {
            return false;
        };
        let bit = n % WORD_BITS;
        if (word >> bit) % 2 != 0 {
            return false;
        }
        self.words[at] = word | (1 << bit);
        self.room -= 1;
        true
    }
}
