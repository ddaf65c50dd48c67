//! Lists of plain numbers.
ghost use Rattle.std.specs.Prelude.{◌≡◌, ◌↔◌, IsTrue, IsSorted};
ghost use Rattle.std.specs.Ordering.{int_cmp};
ghost use Rattle.cps_model.specs.Lookups.{IsAllDifferent};

/// Whether each number of a sorted list is greater than those before it.
pub fn is_rising(numbers: &[i64]) -> bool
    requires { IsSorted int_cmp numbers.now }
    ensures { IsTrue result ↔ IsAllDifferent numbers.now }
{
    for k in 1..numbers.len() {
        if numbers[k] <= numbers[k - 1] {
            return false;
        }
    }
    true
}

/// Whether no two numbers are equal. It sorts them.
pub fn are_different(mut numbers: Vec<i64>) -> bool
    ensures { IsTrue result ↔ IsAllDifferent numbers.items }
{
    numbers.sort_unstable();
    is_rising(numbers.as_slice())
}
