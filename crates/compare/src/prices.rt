// What a route costs, as one number, and the rates that go by it.
use floor::Counts;
use rate::Rate;
use rates::counter::CounterRate;
use rates::exact::ExactRate;

// The square root of 2, in parts of which 2 to the power of 62 make a whole.
const ROOT: u128 = 6_521_908_912_666_391_106;

const WHOLE: u128 = 4_611_686_018_427_387_904;

// The plain counterpart of a rate.
#[derive(Clone, Copy)]
pub enum Price {
    // A straight step costs 1 and a diagonal one the square root of 2. Costs of different counts up to a million lie
    // much further apart than what is cut off from the root makes up.
    Exact,
    // A straight step costs 5 and a diagonal one 7.
    Counter,
}

impl Price {
    pub fn cost(self, counts: Counts) -> u128 {
        let straight = u128::from(counts.straight);
        let diagonal = u128::from(counts.diagonal);
        match self {
            Price::Exact => straight * WHOLE + diagonal * ROOT,
            Price::Counter => straight * 5 + diagonal * 7,
        }
    }
}

// A rate, with the price that it has to go by.
pub trait Priced: Rate + Copy + Drop {
    const PRICE: Price;
}

impl Priced for ExactRate {
    const PRICE: Price = Price::Exact;
}

impl Priced for CounterRate {
    const PRICE: Price = Price::Counter;
}
