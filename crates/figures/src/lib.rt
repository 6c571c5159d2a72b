// The known figures, joined in one fact, for citing.
#![tactic(auto)]

ghost use Rattle.figures.specs.Figures.{KnownFigures};

// The figures hold of the definitions that the calls' contracts cite; this function's contract says so, and it does
// nothing else.
pub fn known_figures<T>(x: T) -> T
    ensures { KnownFigures }
{
    x
}
