//! Lists of plain numbers that are sorted.
ghost use Rattle.std.specs.Prelude.{◌≡◌, ◌↔◌, ℤ, IsTrue, Contains, IsSorted};
ghost use Rattle.std.specs.Ordering.{int_cmp};
ghost use Rattle.cps_model.specs.Rising.{IsRising};

/// Sorts numbers, and drops each that equals the one before it.
pub fn make_distinct(numbers: &mut Vec<i64>)
    ensures rising { IsRising numbers.new.items }
    ensures kept { (n : ℤ) → Contains numbers.old.items n → Contains numbers.new.items n }
    ensures added_none { (n : ℤ) → Contains numbers.new.items n → Contains numbers.old.items n }
{
    numbers.sort_unstable();
    numbers.dedup();
}

/// Whether a sorted list has a number.
pub fn is_listed(numbers: &[i64], number: i64) -> bool
    requires { IsSorted int_cmp numbers.now }
    ensures { IsTrue result ↔ Contains numbers.now number }
{
    numbers.binary_search(&number).is_ok()
}
