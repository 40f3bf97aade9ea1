// The cnf program: a bound line and a model text from standard input, the DIMACS file to standard output; after a refusal two lines. Input
// beyond `LONGEST` changes nothing: a model text of more than 8,192 bytes is refused whatever it holds.
#![tactic(auto)]

use input::read_full;
use model::Model;
use std::io;

// How many bytes of the input are read at most.
const LONGEST: usize = 65536;

fn line(rt: &impl Print, key: &str, n: u64) -> io::Result<()> {
    println!(rt; "{key}={n}")
}

// The pages of a row, each written into `space` first.
fn print_row(
    rt: &impl Print,
    m: Model,
    bound: usize,
    row: usize,
    space: &mut [u8],
) -> io::Result<()> {
    for p in 0..dimacs::pages_to_print(m, bound, row) {
        let n = dimacs::page(m, bound, row, p, space);
        rt.write_all(&space[..n])?;
    }
    Ok(())
}

// Each row.
fn print_file(rt: &impl Print, m: Model, bound: usize) -> io::Result<()> {
    let mut page = [0u8; dimacs::PAGE];
    let space: &mut [u8] = &mut page;
    for row in 0..dimacs::rows_to_print(m, bound) {
        print_row(rt, m, bound, row, space)?;
    }
    Ok(())
}

fn main(rt: HostRuntime) -> io::Result<()> {
    let mut stdin = rt.stdin();
    let mut input = [0u8; LONGEST];
    let n = read_full(&mut stdin, &mut input)?;
    match dimacs::requested(&input[..n]) {
        Ok(asked) => print_file(&rt, asked.model, asked.bound),
        Err(refusal) => {
            line(&rt, "refusal", refusal.number() as u64)?;
            line(&rt, "line", refusal.line() as u64)
        }
    }
}
