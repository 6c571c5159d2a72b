// Why no plan is read.
ghost use Rattle.std.specs.Prelude.{◌≡◌};
ghost use Rattle.texts.specs.declared.fault.ParseFault.TheVariants.{NoMemory};
ghost use Rattle.texts.specs.Faults.{text_layer, text_reason};

use std::alloc::AllocError;
use stores::{Layer, Refusal};

// The refusal of a text out of form. An enum, as the refusals of all layers are.
#[derive(Clone, Copy, PartialEq, Eq, Debug)]
pub enum TextFault {
    // This is the first bad line, counted from 1; text after the third line is line 4.
    BadLine(u64),
}

impl Refusal for TextFault {
    ghost layer = { text_layer };

    ghost reason = { text_reason };

    fn number(self) -> u64 {
        15
    }

    fn place(self) -> u64 {
        match self {
            TextFault::BadLine(line) => line,
        }
    }

    fn layer(self) -> Layer {
        Layer::Run
    }
}

#[derive(Clone, Copy, PartialEq, Eq, Debug)]
pub enum ParseFault {
    Text(TextFault),
    // There was no memory to keep the plan, which says nothing of the text.
    NoMemory,
}

impl From<AllocError> for ParseFault {
    ghost from_gives = { λ _ r. r ≡ NoMemory };

    fn from(_e: AllocError) -> ParseFault {
        ParseFault::NoMemory
    }
}
