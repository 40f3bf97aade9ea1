// Cases of the calls with a record, read from standard input, a line each: docs/TESTING.md says what a line means.
// A line that begins with # is written out again, and each question writes the numbers of its answer.
#![tactic(auto)]

use input::read_full;
use model::Model;
use numbers::Numbers;
use std::io;

mod answers;
mod calls;
mod numbers;
mod records;

// How many bytes of the input are read at most.
const LONGEST: usize = 65536;

fn command(rt: &impl Print, m: Model, n: Numbers) -> io::Result<Model> {
    let v = n.values;
    match v[0] {
        0..=9 => return Ok(records::changed(m, v)),
        10 => answers::formed(rt, m)?,
        11 => answers::ceiling(rt, m)?,
        12 => answers::totals_for(rt, m, v[1])?,
        13 => answers::walked(rt, m, n)?,
        14 => answers::stepped(rt, m, v)?,
        15 => calls::counted(rt, m, v[1])?,
        16 => calls::emitted(rt, m, v[1], v[2], v[3])?,
        17 => calls::encoded(rt, m, n)?,
        18 => calls::decoded(rt, m, n)?,
        _ => answers::unknown(rt)?,
    }
    Ok(m)
}

// One line, without its LF.
fn line(rt: &impl Print, s: &[u8], m: Model) -> io::Result<Model> {
    if s.starts_with(b"#") {
        rt.write_all(s)?;
        rt.print("\n")?;
        return Ok(m);
    }
    command(rt, m, numbers::read(s))
}

fn run(rt: &impl Print, s: &[u8]) -> io::Result<()> {
    let mut m = Model::blank();
    for each in s.split_inclusive(|&b| b == b'\n') {
        m = line(rt, each.strip_suffix(b"\n").unwrap_or(each), m)?;
    }
    Ok(())
}

fn main(rt: HostRuntime) -> io::Result<()> {
    let mut stdin = rt.stdin();
    let mut input = [0u8; LONGEST];
    let n = read_full(&mut stdin, &mut input)?;
    run(&rt, &input[..n])
}
