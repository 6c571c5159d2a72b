// The permit that a life holds between two calls.
use queue::{FreePermit, FullPermit};

pub enum Held {
    Free(FreePermit),
    Full(FullPermit),
    // A close used it up.
    Spent,
}
