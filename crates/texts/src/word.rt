// A word of a text: the part of the text that it is, its line, and what it says.
ghost use Rattle.std.specs.Prelude.{◌≡◌};
ghost use Rattle.grammar.specs.Scans.{number_of, stretch_of};
ghost use Rattle.texts.specs.Words.{token_of};

use grammar::Stretch;

#[derive(Clone, Copy)]
pub struct Word<'a> {
    pub text: &'a [u8],
    pub line: u64,
    pub says: Saying,
}

// What a word says: a number, or so many turns of a party.
#[derive(Clone, Copy, PartialEq, Eq, Debug)]
pub enum Saying {
    Number(u64),
    Turns(Stretch),
}

impl Word<'_> {
    pub(crate) fn number(&self) -> Option<u64>
        ensures { result ≡ number_of (token_of self.now) }
    {
        match self.says {
            Saying::Number(value) => Some(value),
            Saying::Turns(_) => None,
        }
    }

    pub(crate) fn stretch(&self) -> Option<Stretch>
        ensures { result ≡ stretch_of (token_of self.now) }
    {
        match self.says {
            Saying::Number(_) => None,
            Saying::Turns(stretch) => Some(stretch),
        }
    }
}
