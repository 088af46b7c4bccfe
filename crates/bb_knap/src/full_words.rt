//! Words that are full of decisions.

ghost use Rattle.std.specs.Prelude.{ℕ, ◌≡◌, ◌<◌, ◌+◌, [], ◌∷◌, ◌++◌, length, take, slice_index, IfOk};
ghost use Rattle.bb_knap.specs.Decisions.{word_limit, words_of, IsFullWords};

use inst_text::MAX_ITEMS;
use pq_io::NoMemory;
use std::alloc::Global;

// How many words hold a decision on each item.
const WORDS: usize = MAX_ITEMS as usize / 64;

/// The words that are full of decisions: none, one in place, or more on the heap, of which the first are in use.
#[derive(Debug, Drop)]
pub(crate) enum FullWords {
    Zero,
    One(u64),
    More(Box<[u64; WORDS]>),
}

impl FullWords {
    /// The same words again. Constant time.
    pub(crate) fn copied(&self, alloc: Global) -> Result<FullWords, NoMemory>
        ensures words { IfOk result (λ full. words_of full ≡ words_of self.now) }
        ensures full { IfOk result (λ full. (n : ℕ) → IsFullWords n self.now → IsFullWords n full) }
    {
        match self {
            FullWords::Zero => Ok(FullWords::Zero),
            FullWords::One(word) => Ok(FullWords::One(*word)),
            FullWords::More(words) => Ok(FullWords::More(Box::new(alloc, **words)?)),
        }
    }

    /// One word more, behind so many. Constant time.
    pub(crate) fn with(self, alloc: Global, count: usize, word: u64) -> Result<FullWords, NoMemory>
        requires full { IsFullWords count self }
        requires room { count < word_limit }
        ensures full { IfOk result (λ full. IsFullWords (count + 1) full) }
        ensures more { IfOk result (λ full.
            take (count + 1) (words_of full) ≡ take count (words_of self) ++ word ∷ []) }
    {
        Ok(match self {
            FullWords::Zero => FullWords::One(word),
            FullWords::One(first) => {
                let mut words = [0; WORDS];
                words[0] = first;
                words[1] = word;
                FullWords::More(Box::new(alloc, words)?)
            }
            FullWords::More(mut words) => {
                words[count] = word;
                FullWords::More(words)
            }
        })
    }

    /// The word at this place. Constant time.
    pub(crate) fn word(&self, place: usize) -> u64
        requires inside { place < length (words_of self.now) }
        requires small { place < word_limit }
        ensures { result ≡ slice_index (words_of self.now) place }
    {
        match self {
            FullWords::Zero => 0,
            FullWords::One(word) => *word,
            FullWords::More(words) => words[place],
        }
    }
}
