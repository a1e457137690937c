// One to four of a kind, in place.
ghost use Rattle.std.specs.Prelude.{◌≡◌, ◌∷◌};
ghost use Rattle.request_text.specs.OneToFour.{items, items_of};

/// One to four.
#[derive(Clone, Copy)]
pub(crate) enum OneToFour<T> {
    One(T),
    Two(T, T),
    Three(T, T, T),
    Four(T, T, T, T),
}

impl<T: Copy> OneToFour<T> {
    /// The first, and the others where there are any.
    pub(crate) fn parts(&self) -> (T, Option<OneToFour<T>>)
        ensures { items self.now ≡ result.0 ∷ items_of result.1 }
    {
        match *self {
            OneToFour::One(a) => (a, None),
            OneToFour::Two(a, b) => (a, Some(OneToFour::One(b))),
            OneToFour::Three(a, b, c) => (a, Some(OneToFour::Two(b, c))),
            OneToFour::Four(a, b, c, d) => (a, Some(OneToFour::Three(b, c, d))),
        }
    }
}
