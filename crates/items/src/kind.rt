// What every item kind promises: a word for each item, an item for each word, and a blank.
ghost use Rattle.std.specs.Prelude.{◌≡◌, ℕ};

pub trait ItemKind: Copy {
    // The word of an item.
    ghost word: { Self → ℕ };

    // The item that a word reads as.
    ghost item: { ℕ → Self };

    // The item that a fresh cell holds.
    ghost blank: { Self };

    fn blank() -> Self
        ensures { result ≡ blank };

    // `law` is the law of the kind: what was encoded decodes to itself.
    fn encode(self) -> u64
        ensures value { result ≡ word self }
        ensures law { item (word self) ≡ self };

    fn decode(w: u64) -> Self
        ensures { result ≡ item w };
}
