// From a text to its plan.
ghost use Rattle.std.specs.Prelude.{◌≡◌, ◌≤◌, vec_items};
ghost use Rattle.std.specs.Fn.{FnOnceReturnsAt};
ghost use Rattle.grammar.specs.Plans.{HeaderFits, ProbesFit, StretchesFit, header_words, probe_words, stretch_words, OneReading};
ghost use Rattle.texts.specs.Parsing.{bad_line, FormRead, LineParsed, EndParsed, Parsed};

use crate::fault::{ParseFault, TextFault};
use crate::form;
use crate::lexer::Lexer;
use crate::plan::Plan;
use crate::word::Word;
use grammar::{Header, Stretch};
use std::alloc::{AllocError, Global};

impl Lexer<'_> {
    // The fault of the line that is next.
    fn bad_line(&self) -> ParseFault
        ensures { result ≡ bad_line self.now.line }
    {
        ParseFault::Text(TextFault::BadLine(self.line))
    }

    // What the line that is next says in a form.
    fn in_form<T, F: FnOnce(&[Word]) -> Result<Option<T>, AllocError>>(
        &mut self,
        heap: Global,
        form: F,
    ) -> Result<T, ParseFault>
        requires { F.IsAlwaysCallable form }
        ensures { FormRead (λ ws r. FnOnceReturnsAt F.FnOnce form ws r) self.old result self.new }
    {
        let bad = self.bad_line();
        let Some(words) = self.line(heap)? else {
            return Err(bad);
        };
        form(words.as_slice())?.ok_or(bad)
    }

    fn header(&mut self, heap: Global) -> Result<Header, ParseFault>
        ensures { LineParsed HeaderFits header_words (λ h. h) self.old result self.new }
    {
        self.in_form(heap, |words| Ok(form::header(words)))
    }

    fn probes(&mut self, heap: Global) -> Result<Vec<u16>, ParseFault>
        ensures { LineParsed ProbesFit probe_words vec_items self.old result self.new }
    {
        self.in_form(heap, |words| form::probes(heap, words))
    }

    fn stretches(&mut self, heap: Global, workers: u64) -> Result<Vec<Stretch>, ParseFault>
        ensures { workers ≤ 8 → LineParsed (StretchesFit workers) stretch_words vec_items self.old result self.new }
    {
        self.in_form(heap, |words| form::stretches(heap, workers, words))
    }

    fn end(&self) -> Result<(), ParseFault>
        ensures { EndParsed self.now result }
    {
        if self.at < self.text.len() {
            return Err(self.bad_line());
        }
        Ok(())
    }
}

fn read(heap: Global, text: &[u8]) -> Result<Plan, ParseFault>
    ensures plan { Parsed text.now result }
    ensures only { OneReading text.now }
{
    let mut lexer = Lexer::new(text);
    let header = lexer.header(heap)?;
    let probes = lexer.probes(heap)?;
    let stretches = lexer.stretches(heap, header.workers)?;
    lexer.end()?;
    Ok(Plan {
        header,
        probes,
        stretches,
    })
}

// The plan of a text in form, or the first bad line of any other text. No text has two readings.
pub fn parse(heap: Global, text: &[u8]) -> Result<Plan, ParseFault>
    ensures plan { Parsed text.now result }
    ensures only { OneReading text.now }
{
    read(heap, text)
}
