//! Structs that may grow: each is a list of 64-bit words, of which the caller and the library may know different numbers.

ghost use Rattle.std.specs.Prelude.{◌≡◌, ◌↔◌, IsTrue, slice_index};
ghost use Rattle.quic_streams_c.specs.Words.{words_filled, AreZeroFrom};

// Writes the words that the library knows, as many as the caller has, and 0 into the caller's others.
#[inline(always)]
pub(crate) fn fill_words(out: &mut [u64], known: &[u64])
    ensures { out.new ≡ words_filled known.now out.old }
{
    // As a rule both have the same words. Then the length of the copy is a constant.
    if out.len() == known.len() {
        out.copy_from_slice(known);
        return;
    }
    out.fill(0);
    let count = known.len().min(out.len());
    out[..count].copy_from_slice(&known[..count]);
}

// A caller's word, or 0 if it does not have it.
pub(crate) fn word_at(words: &[u64], index: usize) -> u64
    ensures { result ≡ slice_index words.now index }
{
    words.get(index).copied().unwrap_or(0)
}

// Whether the words behind the first so many are 0.
pub(crate) fn are_zero_from(words: &[u64], known: usize) -> bool
    ensures { IsTrue result ↔ AreZeroFrom known words.now }
{
    words[known.min(words.len())..]
        .iter()
        .all(|word| *word == 0)
}
