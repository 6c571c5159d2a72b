// Tests of the queue's calls and of its lives on examples.
#![tactic(auto)]

#[cfg(test)]
mod finding;
#[cfg(test)]
mod life;
#[cfg(test)]
mod steps;
