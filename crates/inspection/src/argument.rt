// The argument of the call: the number of cells, in decimals.
ghost use Rattle.std.specs.Prelude.{◌≡◌};
ghost use Rattle.std.specs.Option.{option_map};
ghost use Rattle.inspection.specs.Arguments.{Counted, plain};

// Whether a text has no plus in front and no leading zero, which `parse` admits.
fn is_plain(text: &str) -> bool
    ensures { result ≡ plain text.now }
{
    match text.as_bytes() {
        [] | [b'+', ..] => false,
        [b'0', rest @ ..] => rest.is_empty(),
        [_, ..] => true,
    }
}

// The number that the argument is.
pub(crate) fn cell_count(argument: Option<&str>) -> Option<usize>
    ensures { Counted (option_map (λ x. x.now) argument.entry) result }
{
    let text = argument?;
    if !is_plain(text) {
        return None;
    }
    text.parse::<usize>().ok()
}
