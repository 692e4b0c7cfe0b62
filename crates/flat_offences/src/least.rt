//! The least of several numbers.

ghost use Rattle.std.specs.Prelude.{◌≡◌, ◌≤◌, ℕ, true, false, IfSome, IfNone};
ghost use Rattle.flat_orders.specs.Orders.{among};

/// The least of these numbers, None where there is none.
pub fn least_of(numbers: &[u32]) -> Option<u32>
    ensures among { IfSome result (λ n. among n numbers.now ≡ true) }
    ensures least { IfSome result (λ n. (m : ℕ) → among m numbers.now ≡ true → n ≤ m) }
    ensures none { IfNone result ((m : ℕ) → among m numbers.now ≡ false) }
{
    let mut least = *numbers.first()?;
    for number in numbers {
        least = least.min(*number);
    }
    Some(least)
}
