// Replays the fault known from the field: a worker has looked at its cell once and falls asleep, and the receiver comes
// round the whole ring. The worker wakes, looks again, and delivers the item of its own rank.
#![tactic(auto)]

mod lines;
mod schedule;

use crate::lines::{AnswerText, CallText, EntryText};
use crate::schedule::{no_answers, schedule};
use anyhow::Context;
use arrangements::{ArrangedStore, ArrangementFault, Turned};
use blocks::BlockMemory;
use items::Reading;
use lives::Parts;
use protocol::{Answer, Call, Entry, Worker};
use queue::{Log, QueueFault, Receiver};
use std::io;
use stores::StoreFault;

const CELLS: usize = 16;

const BYTES: usize = 1024;

// Makes the calls in a queue of its own, with two workers, and answers how many deliveries there are.
fn live(
    calls: &[Call<Reading>],
    answers: &mut [Answer<Reading>],
    entries: &mut [Entry<Reading>],
) -> Result<usize, QueueFault<ArrangementFault<StoreFault>>> {
    let mut bytes = [0u8; BYTES];
    let mut store = ArrangedStore::new(BlockMemory::new(&mut bytes, CELLS), Turned);
    let mut receiver = Receiver::new();
    let mut workers = [Worker::idle(); 2];
    let mut log = Log::new(entries);
    let mut parts = Parts {
        store: &mut store,
        receiver: &mut receiver,
        workers: &mut workers,
        log: &mut log,
    };
    let held = parts.replay(0, calls, answers)?;
    let _ = held.close_spare();
    Ok(log.count())
}

fn print_life(
    rt: &HostRuntime,
    calls: &[Call<Reading>],
    answers: &[Answer<Reading>],
) -> io::Result<()> {
    for (call, answer) in calls.iter().zip(answers.iter()) {
        let call = CallText(*call);
        let answer = AnswerText(*answer);
        println!(rt; "{call}: {answer}")?;
    }
    Ok(())
}

fn print_log(rt: &HostRuntime, entries: &[Entry<Reading>], count: usize) -> io::Result<()> {
    for entry in entries.iter().take(count) {
        let entry = EntryText(*entry);
        println!(rt; "log {entry}")?;
    }
    Ok(())
}

fn main(rt: HostRuntime) -> anyhow::Result<()> {
    let calls = schedule(rt.alloc())?;
    let mut answers = no_answers(rt.alloc(), calls.len())?;
    let mut entries = [Entry::blank(); 16];
    let count = live(calls.as_slice(), answers.as_mut_slice(), &mut entries)
        .ok()
        .context("the queue can't be laid out")?;
    print_life(&rt, calls.as_slice(), answers.as_slice())?;
    print_log(&rt, &entries, count)?;
    Ok(())
}
