// The lines of a text.
ghost use Rattle.std.specs.Prelude.{IfOk};
ghost use Rattle.texts.specs.Words.{LineRead};

use crate::lexer::Lexer;
use crate::word::Word;
use std::alloc::{AllocError, Global};

impl<'a> Lexer<'a> {
    // The words of the line that is next. None if it is not made of words, each parted from the next by one space,
    // or its line feed is missing.
    pub fn line(&mut self, heap: Global) -> Result<Option<Vec<Word<'a>>>, AllocError>
        ensures { IfOk result (λ o. LineRead self.old o self.new) }
    {
        let mut words = Vec::new(heap);
        if self.eat(b'\n') {
            return Ok(Some(words));
        }
        loop {
            let Some(word) = self.word() else {
                return Ok(None);
            };
            words.push(word)?;
            if self.eat(b'\n') {
                return Ok(Some(words));
            }
            if !self.space() {
                return Ok(None);
            }
        }
    }
}
