// The words of a text.
ghost use Rattle.std.specs.Prelude.{◌≡◌, ◌≤◌, length};
ghost use Rattle.std.specs.Char.{is_ascii_digit};
ghost use Rattle.std.specs.List.{prefix_len};
ghost use Rattle.texts.specs.Words.{Start, Eaten, DigitsEaten, NumberRead, SayingRead, WordRead};

use crate::lexer::Lexer;
use crate::numeral::numeral;
use crate::word::{Saying, Word};
use grammar::Stretch;

// How many digits stand in front.
fn digit_count(bytes: &[u8]) -> usize
    ensures count { result ≡ prefix_len is_ascii_digit bytes.now }
    ensures within { result ≤ length bytes.now }
{
    bytes.iter().take_while(|b| b.is_ascii_digit()).count()
}

impl<'a> Lexer<'a> {
    pub fn new(text: &'a [u8]) -> Lexer<'a>
        ensures { Start text.now result }
    {
        Lexer {
            text,
            at: 0,
            line: 1,
        }
    }

    // Goes past the byte `b` if it is next.
    pub(crate) fn eat(&mut self, b: u8) -> bool
        ensures { Eaten b self.old result self.new }
    {
        if self.text.get(self.at) != Some(&b) {
            return false;
        }
        self.at += 1;
        self.line += u64::from(b == b'\n');
        true
    }

    // Goes past a space if it is next.
    pub(crate) fn space(&mut self) -> bool
        ensures { Eaten 32 self.old result self.new }
    {
        self.eat(b' ')
    }

    // Goes past the digits that are next.
    fn digits(&mut self) -> &'a [u8]
        ensures { DigitsEaten self.old result.now self.new }
    {
        let rest = &self.text[self.at..];
        let count = digit_count(rest);
        self.at += count;
        &rest[..count]
    }

    fn number(&mut self) -> Option<u64>
        ensures { NumberRead self.old result self.new }
    {
        numeral(self.digits())
    }

    // What the word that is next says.
    fn saying(&mut self) -> Option<Saying>
        ensures { SayingRead self.old result self.new }
    {
        let value = self.number()?;
        if !self.eat(b':') {
            return Some(Saying::Number(value));
        }
        let count = self.number()?;
        Some(Saying::Turns(Stretch {
            party: value,
            count,
        }))
    }

    // The word that is next, as far as it goes.
    pub fn word(&mut self) -> Option<Word<'a>>
        ensures { WordRead self.old result self.new }
    {
        let Lexer { text, at, line } = *self;
        let says = self.saying()?;
        Some(Word {
            text: &text[at..self.at],
            line,
            says,
        })
    }
}
