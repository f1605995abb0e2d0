//! Values, as the competition's `v` lines.
ghost use Rattle.std.specs.Prelude.{◌≡◌, ◌+◌, ◌^◌, ◌<◌, ◌≤◌, ◌∷◌, ◌++◌, List, ℕ, length, IfOk, OnOk};
ghost use Rattle.sat_text.specs.Formulas.{lit_word};
ghost use Rattle.sat_text.specs.Values.{filled, value_words, value_text};

use itoa::Buffer;
use sat_check::Lit;
use std::alloc::{AllocError, Global};

/// How long a line may be.
const WIDTH: usize = 78;

/// A text of words in lines, and how long its last line is.
#[derive(Drop)]
pub(crate) struct Lines {
    pub(crate) text: Vec<u8>,
    pub(crate) column: usize,
}

impl Lines {
    // The next word, on a new line where the last has no room for it.
    fn put(&mut self, word: &[u8]) -> Result<(), AllocError>
        requires column { self.old.column ≤ 78 }
        requires word { length word.now ≤ 76 }
        ensures column { OnOk result (self.new.column ≤ 78) }
        ensures text { OnOk result ((words : List (List ℕ)) → self.new.text.items ++ filled self.new.column words ≡ self.old.text.items ++ filled self.old.column (word.now ∷ words)) }
    {
        if self.column + 1 + word.len() <= WIDTH {
            self.text.push(b' ')?;
            self.column += 1 + word.len();
        } else {
            self.text.extend_from_slice(b"\nv ")?;
            self.column = 2 + word.len();
        }
        self.text.extend_from_slice(word)?;
        Ok(())
    }

    // The words of the values, and the line end.
    fn put_all(&mut self, alloc: Global, values: &[bool]) -> Result<(), AllocError>
        requires column { self.old.column ≤ 78 }
        requires values { length values.now < 2 ^ 32 }
        ensures text { OnOk result (self.new.text.items ≡ self.old.text.items ++ filled self.old.column (value_words 0 values.now)) }
    {
        let mut word = Vec::new(alloc);
        for (index, value) in values.iter().enumerate() {
            word.clear();
            push_lit(
                &mut word,
                Lit {
                    variable: index as u32,
                    positive: *value,
                },
            )?;
            self.put(&word)?;
        }
        self.put(b"0")?;
        self.text.push(b'\n')?;
        Ok(())
    }
}

/// The word of a literal, at the end of a text.
pub(crate) fn push_lit(text: &mut Vec<u8>, lit: Lit) -> Result<(), AllocError>
    ensures text { OnOk result (text.new.items ≡ text.old.items ++ lit_word lit) }
    ensures short { OnOk result (length text.new.items ≤ length text.old.items + 41) }
{
    if !lit.positive {
        text.push(b'-')?;
    }
    let mut buffer = Buffer::new();
    text.extend_from_slice(buffer.format(u64::from(lit.variable) + 1).as_bytes())?;
    Ok(())
}

/// The `v` lines of the values of the variables, from variable 0 on: for each variable its
/// number, from 1, behind a minus where it is false, and a 0 at the end. A line has as many
/// words as go into 78 columns.
pub fn values_text(alloc: Global, values: &[bool]) -> Result<Vec<u8>, AllocError>
    requires { length values.now < 2 ^ 32 }
    ensures { IfOk result (λ text. text.items ≡ value_text values.now) }
{
    let mut lines = Lines {
        text: Vec::from_slice(alloc, b"v")?,
        column: 1,
    };
    lines.put_all(alloc, values)?;
    Ok(lines.text)
}
