//! Lists of numbers.

ghost use Rattle.std.specs.Prelude.{◌≡◌, ◌==◌};
ghost use Rattle.std.specs.List.{list_any};
ghost use Rattle.release_judging.specs.Judging.{are_distinct as distinct_test};

fn occurs(numbers: &[u16], number: u16) -> bool
    ensures { result ≡ list_any (λ m. m == number) numbers.now }
{
    numbers.iter().any(|m| *m == number)
}

/// Whether no two are the same.
pub(crate) fn are_distinct(numbers: &[u16]) -> bool
    ensures { result ≡ distinct_test numbers.now }
{
    for i in 0..numbers.len() {
        if occurs(&numbers[i + 1..], numbers[i]) {
            return false;
        }
    }
    true
}
