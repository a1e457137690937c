// The law of the texts of programs on words.

ghost use Rattle.fast_text.specs.WordTexts.{TextsDetermineWords};

/// Two programs on words with the same text of statements are the same, and so is what it says of their arrays.
pub fn texts_determine_words()
    ensures { TextsDetermineWords }
{}
