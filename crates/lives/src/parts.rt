// The parts of a queue, lent for one call after another. Each loan has a lifetime of its own: a struct of several `&mut`
// at one lifetime was tried, and the check can't prove its callers yet.
use protocol::Worker;
use queue::{Log, Receiver};

#[derive(Drop)]
pub struct Parts<'s, 'r, 'w, 'l, 'e, I, S> {
    pub store: &'s mut S,
    pub receiver: &'r mut Receiver<I>,
    pub workers: &'w mut [Worker<I>],
    pub log: &'l mut Log<'e, I>,
}
