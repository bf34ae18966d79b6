// The exact rate: a straight steps and b diagonal ones cost a + b√2.
ghost use Rattle.std.specs.Prelude.{◌≡◌, ◌≤◌, unsigned_abs};
ghost use Rattle.rate.specs.Laws.{limit};
ghost use Rattle.rate.specs.Exact.{squared, exact, OrderedByLength};
ghost use Rattle.rate.proofs.Lengths.{exact_lawful};
ghost use Rattle.rates.specs.Signs.{balance};

use floor::Counts;
use rate::{Comparison, Rate, cap_counts};

#[derive(Clone, Copy, PartialEq, Eq, Debug)]
pub struct ExactRate;

// The square of a difference of two counts.
fn square(difference: i64) -> u64
    requires { unsigned_abs difference ≤ limit }
    ensures value { result ≡ squared (unsigned_abs difference) }
    ensures bound { result ≤ squared limit }
{
    let size = difference.unsigned_abs();
    size * size
}

// What the differences cost together, beside nothing. Where their signs differ, the larger square decides; a diagonal
// step counts √2, so its square counts 2.
fn balance_of(straight: i64, diagonal: i64) -> Comparison
    requires { (unsigned_abs straight ≤ limit) × (unsigned_abs diagonal ≤ limit) }
    ensures { result ≡ balance straight diagonal }
{
    let straight_square = square(straight);
    let diagonal_square = 2 * square(diagonal);
    let (more, less) = match (straight < 0, diagonal < 0) {
        (false, false) => (straight_square + diagonal_square, 0),
        (false, true) => (straight_square, diagonal_square),
        (true, false) => (diagonal_square, straight_square),
        (true, true) => (0, straight_square + diagonal_square),
    };
    Comparison::of(more, less)
}

impl Rate for ExactRate {
    ghost order = { λ _. exact };

    ghost lawful = { λ _. exact_lawful };

    fn compare(&self, x: Counts, y: Counts) -> Comparison {
        let x = cap_counts(x);
        let y = cap_counts(y);
        let straight = i64::from(x.straight) - i64::from(y.straight);
        let diagonal = i64::from(x.diagonal) - i64::from(y.diagonal);
        balance_of(straight, diagonal)
    }
}

// The exact rate is the order of the numbers a + b√2.
pub fn exact_compares_lengths()
    ensures { OrderedByLength }
{}
