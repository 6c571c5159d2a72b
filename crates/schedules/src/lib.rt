// What a drain and a rehearsal do, by the rules of the queue, and what is promised of them. Definitions and laws; the
// calls themselves are in the crate above.
#![tactic(auto)]
