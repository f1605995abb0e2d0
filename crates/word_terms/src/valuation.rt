//! Valuations of symbols.

ghost use Rattle.std.specs.Prelude.{◌≡◌};

use gc0_base::Word;
use std::marker::Model;

/// A list of words, which contracts see as the list of its items.
#[derive(Drop)]
pub struct Words {
    words: Vec<Word>,
}

impl Model for Words {
    ghost use Rattle.std.specs.Prelude.{List};
    ghost use Rattle.gc0_base.specs.declared.word.Word.{Word};

    ghost Value = { List Word };

    ghost view = { λ w. w.words.items };
}

impl Words {
    /// The list of a vector's words. It takes no memory.
    pub fn from_vec(words: Vec<Word>) -> Words
        ensures { result ≡ words.items }
    {
        Words { words }
    }

    /// The vector of the list's words. It takes no memory.
    pub fn into_vec(self) -> Vec<Word>
        ensures { result.items ≡ self }
    {
        let Words { words } = self;
        words
    }

    /// The words, in their order.
    pub fn as_slice(&self) -> &[Word]
        ensures { result.now ≡ self.now }
    {
        self.words.as_slice()
    }
}

/// What each symbol stands for, by its number: a word, which for a truth is 0 or 1.
#[derive(Drop)]
pub struct Valuation {
    pub words: Words,
}
