// From the words of a line to what the line says: `None` where they are out of form. Want of memory is the only error,
// since it says nothing of the text.
ghost use Rattle.std.specs.Prelude.{◌≡◌, ◌≤◌, map, IfOk, vec_items, Decides};
ghost use Rattle.grammar.specs.Plans.{HeaderFits, ProbesFit, StretchesFit, header_words, probe_words, stretch_words};
ghost use Rattle.grammar.specs.Scans.{Says};
ghost use Rattle.texts.specs.Words.{token_of};

use crate::word::Word;
use grammar::{Header, Stretch};
use std::alloc::{AllocError, Global};
use stores::MAX_HEAD;

fn header_fits(h: &Header) -> bool
    ensures { Decides result (HeaderFits h.now) }
{
    (1..=64).contains(&h.cells) && (1..=8).contains(&h.workers) && h.start < MAX_HEAD
}

pub(crate) fn header(words: &[Word]) -> Option<Header>
    ensures { Says HeaderFits header_words (λ h. h) (map token_of words.now) result }
{
    let [cells, workers, start] = words else {
        return None;
    };
    let header = Header {
        cells: cells.number()?,
        workers: workers.number()?,
        start: start.number()?,
    };
    header_fits(&header).then_some(header)
}

pub(crate) fn probes(heap: Global, words: &[Word]) -> Result<Option<Vec<u16>>, AllocError>
    ensures { IfOk result (λ o. Says ProbesFit probe_words vec_items (map token_of words.now) o) }
{
    if words.len() > 64 {
        return Ok(None);
    }
    // A loop: two things can go wrong, and a chain would nest them.
    let mut probes = Vec::new(heap);
    for word in words {
        let Some(number) = word.number() else {
            return Ok(None);
        };
        let Ok(probe) = u16::try_from(number) else {
            return Ok(None);
        };
        probes.push(probe)?;
    }
    Ok(Some(probes))
}

// Whether the party is the receiver or one of the workers, and its turns, of which there are some, find room.
fn stretch_fits(s: &Stretch, workers: u64, room: u64) -> bool
    ensures { Decides result ((s.now.party ≤ workers) × (1 ≤ s.now.count) × (s.now.count ≤ room)) }
{
    s.party <= workers && (1..=room).contains(&s.count)
}

pub(crate) fn stretches(
    heap: Global,
    workers: u64,
    words: &[Word],
) -> Result<Option<Vec<Stretch>>, AllocError>
    ensures { IfOk result (λ o. Says (StretchesFit workers) stretch_words vec_items (map token_of words.now) o) }
{
    if words.len() > 64 {
        return Ok(None);
    }
    // A loop: each word is judged by the room that those before it leave.
    let mut stretches = Vec::new(heap);
    let mut room = 4096;
    for word in words {
        let Some(next) = word.stretch() else {
            return Ok(None);
        };
        if !stretch_fits(&next, workers, room) {
            return Ok(None);
        }
        room -= next.count;
        stretches.push(next)?;
    }
    Ok(Some(stretches))
}
