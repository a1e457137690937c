// The laws of programs on words.

ghost use Rattle.word_code.specs.FreshWords.{FreshWordsIgnoreLeftovers};
ghost use Rattle.word_code.specs.Laws.{QuickenedIsSame};
ghost use Rattle.word_code.specs.Times.{TimesIsProduct};

/// A quickened program leaves the residues that the program leaves, whatever the order of turns.
pub fn quickened_leaves_the_same()
    ensures { QuickenedIsSame }
{}

/// The product of two residues on words that take the modulus is that of the residues.
pub fn times_is_product()
    ensures { TimesIsProduct }
{}

/// Words that read nothing that is left over leave the same among any leftovers.
pub fn fresh_words_ignore_leftovers()
    ensures { FreshWordsIgnoreLeftovers }
{}
