// The size program: a bound line and a model text on standard input, and five lines of numbers on standard output.
// A longer input than `LONGEST` is refused like its part of that length: a bound line has at most 10 bytes, and a text of more than
// 8,192 bytes is refused whatever it holds.
#![tactic(auto)]

use input::read_full;
use sizing::SizeAnswer;
use std::io;

// How many bytes of the input are read at most.
const LONGEST: usize = 65536;

fn line(rt: &impl Print, key: &str, n: u64) -> io::Result<()> {
    println!(rt; "{key}={n}")
}

fn show(rt: &impl Print, a: SizeAnswer) -> io::Result<()> {
    line(rt, "refusal", a.number as u64)?;
    line(rt, "line", a.line as u64)?;
    line(rt, "variables", a.variables as u64)?;
    line(rt, "clauses", a.clauses as u64)?;
    line(rt, "words", a.words as u64)
}

fn main(rt: HostRuntime) -> io::Result<()> {
    let mut stdin = rt.stdin();
    let mut input = [0u8; LONGEST];
    let n = read_full(&mut stdin, &mut input)?;
    show(&rt, sizing::program_sizes(&input[..n]))
}
