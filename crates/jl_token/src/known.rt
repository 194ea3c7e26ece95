//! Words that were read before. A word that is read again shares their bytes, which spares it two blocks.

ghost use Rattle.std.specs.Prelude.{◌≡◌, IfOk};

use jl_model::shared::SharedList;
use jl_model::ty::Bytes;
use std::alloc::{AllocError, Global};
use std::mem;

/// How many words are kept.
const PLACES: usize = 64;

/// The last word of each place. A word chooses its place, and words that share one drive each other out.
#[derive(Drop)]
pub(crate) struct KnownWords {
    pub(crate) alloc: Global,
    words: Vec<Bytes>,
}

/// The place of a word.
fn place_of(word: &[u8]) -> usize {
    match word {
        [] => 0,
        [only] => *only as usize & (PLACES - 1),
        [first, .., last] => {
            ((*first as usize) ^ (2 * (*last as usize)) ^ (4 * (word.len() & 0xff))) & (PLACES - 1)
        }
    }
}

impl KnownWords {
    pub(crate) fn new(alloc: Global) -> Result<KnownWords, AllocError> {
        let mut words = Vec::new(alloc);
        for _ in 0..PLACES {
            words.push(Bytes::empty())?;
        }
        Ok(KnownWords { alloc, words })
    }

    /// The word is the last of its place.
    fn keep(&mut self, place: usize, word: Bytes) {
        match self.words.get_mut(place) {
            Some(kept) => drop(mem::replace(kept, word)),
            None => drop(word),
        }
    }

    /// The bytes of a word.
    pub(crate) fn share(&mut self, word: &[u8]) -> Result<Bytes, AllocError>
        ensures { IfOk result (λ bytes. bytes ≡ word.now) }
    {
        let place = place_of(word);
        if let Some(known) = self.words.get(place) {
            if known.as_slice() == word {
                let bytes = known.copy()?;
                return Ok(bytes);
            }
        }
        let bytes = SharedList::from_vec(self.alloc, Vec::from_slice(self.alloc, word)?)?;
        self.keep(place, bytes.copy()?);
        Ok(bytes)
    }
}
