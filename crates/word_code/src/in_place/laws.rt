// The law of programs on words in place.

ghost use Rattle.word_code.specs.InPlace.Laws.{InPlaceLeavesTheSame};

/// The words of a program that fits, whose lines have a word or more, leave the same in place, for
/// every vector and every order of turns.
pub fn in_place_leaves_the_same()
    ensures { InPlaceLeavesTheSame }
{}
