// The calls of the life.
use items::Reading;
use protocol::{Answer, Call};
use std::alloc::{AllocError, Global};
use std::iter;

// Steps of one worker.
fn steps(calls: &mut Vec<Call<Reading>>, worker: usize, count: usize) -> Result<(), AllocError> {
    calls.extend(iter::repeat_n(Call::WorkerStep(worker), count))
}

// An item of this probe, and so many steps of the receiver with it.
fn hand_over(calls: &mut Vec<Call<Reading>>, probe: u16, count: usize) -> Result<(), AllocError> {
    calls.push(Call::Submit(Reading {
        probe,
        sequence: 0,
        level: 0,
    }))?;
    calls.extend(iter::repeat_n(Call::ReceiverStep, count))
}

// Worker 0 falls asleep over rank 0. The receiver fills all cells, worker 1 frees cells 1 to 3, and the receiver comes
// by cell 0 again and skips it. Worker 0 wakes and delivers, and the queue is closed.
pub(crate) fn schedule(heap: Global) -> Result<Vec<Call<Reading>>, AllocError> {
    let mut calls = Vec::new(heap);
    steps(&mut calls, 0, 2)?;
    for probe in 1..17 {
        hand_over(&mut calls, probe, 3)?;
    }
    steps(&mut calls, 1, 12)?;
    hand_over(&mut calls, 17, 5)?;
    steps(&mut calls, 0, 4)?;
    calls.push(Call::Close)?;
    Ok(calls)
}

// A slot for each answer.
pub(crate) fn no_answers(heap: Global, count: usize) -> Result<Vec<Answer<Reading>>, AllocError> {
    vec![in heap; Answer::NotMade; count]
}
