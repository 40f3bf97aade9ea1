// Questions about the clause list: counts, emission, and both conversions.
use crate::numbers::Numbers;
use counts::ListCounts;
use emission::EmitRefusal;
use model::Model;
use std::io;

// number, variables, clauses, words.
fn counts_line(rt: &impl Print, z: ListCounts) -> io::Result<()> {
    println!(rt; "0 {} {} {}", z.variables, z.clauses, z.words)
}

// 15 bound: number, variables, clauses, words.
pub(crate) fn counted(rt: &impl Print, m: Model, bound: u8) -> io::Result<()> {
    match counts::counts_of(m, bound as usize) {
        Ok(z) => counts_line(rt, z),
        Err(refusal) => println!(rt; "{} 0 0 0", refusal.number()),
    }
}

// The words of a buffer up to the first one that was there before.
fn show_words(rt: &impl Print, buf: &[i32]) -> io::Result<()> {
    for word in buf.iter().take_while(|&&word| word != 77777) {
        print!(rt; " {word}")?;
    }
    rt.print("\n")
}

// 16 bound high low: an emission of at most high * 256 + low words: number, variables, clauses, words; then the words.
pub(crate) fn emitted(rt: &impl Print, m: Model, bound: u8, high: u8, low: u8) -> io::Result<()> {
    let mut buf = [77777; 16384];
    let limit = high as usize * 256 + low as usize;
    match emission::emit_within(m, bound as usize, limit, &mut buf) {
        Ok(z) => counts_line(rt, z)?,
        Err(EmitRefusal::BufferTooShort { words }) => println!(rt; "22 0 0 {words}")?,
        Err(refusal) => println!(rt; "{} 0 0 0", refusal.number())?,
    }
    show_words(rt, &buf)
}

// The bytes of a buffer up to the first one that was there before.
fn show_bytes(rt: &impl Print, buf: &[u8]) -> io::Result<()> {
    for byte in buf.iter().take_while(|&&byte| byte != 255) {
        print!(rt; " {byte}")?;
    }
    rt.print("\n")
}

// 17 bytes: the run as an assignment: number, place; then the assignment.
pub(crate) fn encoded(rt: &impl Print, m: Model, n: Numbers) -> io::Result<()> {
    let mut buf = [255; 4096];
    if n.last < 80 {
        match encode::run_to_assignment(m, &n.values[1..n.last + 1], &mut buf) {
            Ok(()) => println!(rt; "0 0")?,
            Err(refusal) => println!(rt; "{} {}", refusal.number(), refusal.place())?,
        }
        show_bytes(rt, &buf)?;
    }
    Ok(())
}

// 18 bound bytes: the assignment as a run: number, place; then the run.
pub(crate) fn decoded(rt: &impl Print, m: Model, n: Numbers) -> io::Result<()> {
    let mut buf = [255; Model::STEPS];
    if 1 <= n.last && n.last < 80 {
        let bound = n.values[1] as usize;
        match decode::assignment_to_run(m, bound, &n.values[2..n.last + 1], &mut buf) {
            Ok(()) => println!(rt; "0 0")?,
            Err(refusal) => println!(rt; "{} {}", refusal.number(), refusal.place())?,
        }
        show_bytes(rt, &buf)?;
    }
    Ok(())
}
