//! Lists of plain numbers that are sorted.
ghost use Rattle.std.specs.Prelude.{◌≡◌, ◌<◌, ℤ, pos, Contains, length, slice_index_or};
ghost use Rattle.cps_model.specs.Rising.{IsRising};

/// Sorts numbers, and drops each that equals the one before it.
pub fn make_distinct(numbers: &mut Vec<i32>)
    ensures rising { IsRising numbers.new.items }
    ensures kept { (n : ℤ) → Contains numbers.old.items n → Contains numbers.new.items n }
    ensures added_none { (n : ℤ) → Contains numbers.new.items n → Contains numbers.old.items n }
{
    numbers.sort_unstable();
    numbers.dedup();
}

/// Where a number stands in a list that has it. The list is sorted, and else searched from its start.
pub fn place_in(numbers: &[i32], number: i32) -> usize
    requires { Contains numbers.now number }
    ensures within { result < length numbers.now }
    ensures is { slice_index_or numbers.now result (pos 0) ≡ number }
{
    if let Ok(place) = numbers.binary_search(&number) {
        if place < numbers.len() && numbers[place] == number {
            return place;
        }
    }
    for place in 0..numbers.len() {
        if numbers[place] == number {
            return place;
        }
    }
    0
}
