// Reads a sheet from standard input, and prints the listing of the cheapest loop through its stops, or why there is none.
#![tactic(auto)]

ghost use Rattle.std.specs.Prelude.{◌≤◌, length, IfOk};

use quoting::{MOST_READ, PAGE, quote};
use std::io;
use std::io::{ErrorKind, Read, Write};
use std::process::ExitCode;

// One read, put again where a signal cuts it off.
fn read_some(input: &mut impl Read, buffer: &mut [u8]) -> io::Result<usize>
    ensures { IfOk result (λ n. n ≤ length buffer.new) }
{
    for _ in 0..u32::MAX {
        match input.read(buffer) {
            Err(error) if error.kind() == ErrorKind::Interrupted => {}
            answer => return answer,
        }
    }
    input.read(buffer)
}

// Reads until the buffer is full or the input ends, and says how much was read.
// Kept: `read_to_end` would read into memory that may not be there, and by small reads, which cut a message that comes whole.
fn fill(input: &mut impl Read, buffer: &mut [u8]) -> io::Result<usize>
    ensures { IfOk result (λ n. n ≤ length buffer.new) }
{
    let mut count = 0;
    while count < buffer.len() {
        let more = read_some(input, &mut buffer[count..])?;
        if more == 0 {
            break;
        }
        count += more;
    }
    Ok(count)
}

// A refusal goes to standard output as values and to standard error as a sentence, and the program ends with status 1.
fn main(rt: HostRuntime) -> anyhow::Result<ExitCode> {
    let mut sheet = [0u8; MOST_READ as usize];
    let count = fill(&mut rt.stdin(), &mut sheet)?;
    let mut page = [0u8; PAGE];
    let outcome = quote(&sheet[..count], &mut page);
    rt.stdout().write_all(&page[0..outcome.length])?;
    if let Some(refusal) = outcome.refusal {
        eprintln!(rt; "quote: {refusal}")?;
        return Ok(ExitCode::FAILURE);
    }
    Ok(ExitCode::SUCCESS)
}
