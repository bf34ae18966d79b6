//! Reads calls from standard input, puts them to two planners over different sources, and prints the answers and whether the two agree.
#![tactic(auto)]

mod record;
mod script;
mod telling;

use history::{Call, replay_both};
use octets::ByteSource;
use packed::PackedSource;
use rates::exact::ExactRate;
use record::Record;
use std::io;
use std::process::ExitCode;

// The floor has as many rows as columns.
// Kept: beside those of `quoting`, since the floor here is not that of a sheet; one for both would be no plainer.
const SIDE: usize = 16;

// A byte for each cell.
pub(crate) const CELLS: usize = SIDE * SIDE;

// A word for each row, and one for each column.
const WORDS: usize = 2 * SIDE;

// How many of the first calls, so many, the two runs do not answer alike.
fn differing(one: &Record, two: &Record, count: usize) -> usize {
    let mut first = one.written();
    let mut second = two.written();
    one.answers(count)
        .iter()
        .zip(two.answers(count))
        .filter(|(answer, other)| !first.told(answer).agrees(&second.told(other)))
        .count()
}

fn run(rt: &HostRuntime, calls: &[Call<'_>]) -> anyhow::Result<ExitCode> {
    let heap = rt.alloc();
    let mut bytes = [0u8; CELLS];
    let mut words = [0u64; WORDS];
    let mut first = ByteSource::make(&mut bytes, SIDE, SIDE);
    let mut second = PackedSource::make(&mut words, SIDE, SIDE);
    let mut one = Record::new(heap, calls)?;
    let mut two = Record::new(heap, calls)?;
    let (put, also_put) = replay_both(
        &mut first,
        &mut second,
        &ExactRate,
        calls,
        &mut one.tape(),
        &mut two.tape(),
    );
    let all_put = put.min(also_put);
    if all_put < calls.len() {
        eprintln!(rt;
            "replay: the lists have no room for call {}",
            all_put.saturating_add(1)
        )?;
        return Ok(ExitCode::FAILURE);
    }
    let mut written = one.written();
    for answer in one.answers(all_put) {
        println!(rt; "{}", written.told(answer))?;
    }
    match differing(&one, &two, all_put) {
        0 => println!(rt; "both sources answer alike")?,
        count => println!(rt; "the sources differ in {count} answers")?,
    }
    Ok(ExitCode::SUCCESS)
}

// Every line is read before the first call is put, so a bad line leaves nothing half done.
fn main(rt: HostRuntime) -> anyhow::Result<ExitCode> {
    let text = io::read_to_string(rt.alloc(), rt.stdin())?;
    match script::read(rt.alloc(), text.as_str()) {
        Ok(lines) => {
            let mut calls = Vec::new(rt.alloc());
            for line in lines.as_slice() {
                calls.push(line.call())?;
            }
            run(&rt, calls.as_slice())
        }
        Err(fault) => {
            eprintln!(rt; "replay: {fault}")?;
            Ok(ExitCode::FAILURE)
        }
    }
}
