// Cheapest routes: what it means that no rival costs less, whatever its length, for a route and for a loop.
#![tactic(auto)]

ghost use Rattle.floor.specs.Routes.{Laying, Fair};
ghost use Rattle.cheapest.specs.Claims.{Rivals};

use rate::Rate;

// Under every rate, and for every fair laying, no rival escapes by its length: a route that costs no more than
// those on distinct cells costs no more than any, and cheapest legs make a cheapest loop.
pub fn no_rival_escapes<R: Rate>(rate: &R)
    ensures { (may : Laying) → Fair may → Rivals (R.Rate.order rate.now) may }
{}
