// The number that digits write.
ghost use Rattle.std.specs.Prelude.{◌≡◌, ◌<◌, length, Decides, slice_index};
ghost use Rattle.grammar.specs.Scans.{AllDigits, Numeral};

use stores::MAX_HEAD;

fn has_leading_zero(digits: &[u8]) -> bool
    ensures { Decides result ((1 < length digits.now) × (slice_index digits.now 0 ≡ 48)) }
{
    matches!(digits, [b'0', _, ..])
}

// None if there are no digits, or a leading zero, or the number is too large.
pub(crate) fn numeral(digits: &[u8]) -> Option<u64>
    requires { AllDigits digits.now }
    ensures { Numeral digits.now result }
{
    if digits.is_empty() || has_leading_zero(digits) {
        return None;
    }
    // A loop: `parse` takes text, and these are bytes; and the closure of a `try_fold` would have to be told that the
    // value so far is small.
    let mut value = 0;
    for digit in digits {
        value = value * 10 + u64::from(*digit - b'0');
        // No number of a text in form is as large.
        if value >= MAX_HEAD {
            return None;
        }
    }
    Some(value)
}
