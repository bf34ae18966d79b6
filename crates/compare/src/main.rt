// Compares the planner and its sources with plain answers, worked out cell by cell, on many floors, and prints how many differ.
#![tactic(auto)]

mod asking;
mod courses;
mod dice;
mod edges;
mod exam;
mod extent;
mod flood;
mod floors;
mod grid;
mod makings;
mod prices;
mod steps;
mod tally;
mod visits;
mod words;

use anyhow::anyhow;
use dice::Dice;
use extent::Extent;
use floors::{KINDS, Kind, SIZES};
use makings::go_to_edges;
use std::env;
use tally::Tally;
use visits::visit;

// Where the dice begin, and how often each kind of floor of each size is laid out.
#[derive(Clone, Copy)]
struct Course {
    seed: u64,
    rounds: u32,
}

// A floor with more cells than these is a large one.
const LARGE: usize = 2_000;

const USAGE: &str = "compare takes a seed and a number of rounds, each a whole number";

const DEFAULT: Course = Course { seed: 1, rounds: 1 };

// Two numbers follow the program's name, or nothing does.
fn plan(rt: &HostRuntime) -> anyhow::Result<Course> {
    let mut words = env::args(rt)?.skip(1);
    let Some(seed) = words.next() else {
        return Ok(DEFAULT);
    };
    let (Some(rounds), None) = (words.next(), words.next()) else {
        return Err(anyhow!("{USAGE}"));
    };
    let (Ok(seed), Ok(rounds)) = (seed.parse::<u64>(), rounds.parse::<u32>()) else {
        return Err(anyhow!("{USAGE}"));
    };
    Ok(Course { seed, rounds })
}

// One floor. Where an answer differs, it says on standard error on which floor.
fn compare_on(
    rt: &HostRuntime,
    size: Extent,
    kind: Kind,
    dice: &mut Dice,
    tally: &mut Tally,
) -> anyhow::Result<()> {
    let before = tally.differ();
    visit(rt.alloc(), size, kind, dice, tally)?;
    let more = tally.differ().saturating_sub(before);
    if more > 0 {
        let Extent { rows, cols } = size;
        eprintln!(rt; "{kind} floor of {rows} by {cols}: {more} differ")?;
    }
    Ok(())
}

// Every size and kind; of large floors, which take long, every third kind, from one that is chosen by chance.
fn compare_all(rt: &HostRuntime, dice: &mut Dice, tally: &mut Tally) -> anyhow::Result<()> {
    for (rows, cols) in SIZES {
        let size = Extent { rows, cols };
        let first = dice.roll(3);
        for (number, kind) in KINDS.iter().enumerate() {
            if size.cells() <= LARGE || number % 3 == first {
                compare_on(rt, size, *kind, dice, tally)?;
            }
        }
    }
    Ok(())
}

fn run(rt: &HostRuntime) -> anyhow::Result<()> {
    let plan = plan(rt)?;
    let mut dice = Dice::new(plan.seed);
    let mut tally = Tally::default();
    for _ in 0..plan.rounds {
        compare_all(rt, &mut dice, &mut tally)?;
    }
    go_to_edges(rt.alloc(), &mut tally.edges)?;
    println!(rt; "{tally}")?;
    if tally.differ() > 0 {
        return Err(anyhow!("answers differ"));
    }
    Ok(())
}

fn main(rt: HostRuntime) -> anyhow::Result<()> {
    run(&rt)
}
