// Lists of the worked models, as emission leaves them in the buffer: the answer's numbers, then a line for each clause, then how many words
// beyond the list are as they were.
#![tactic(auto)]

use emission::EmitRefusal;
use model::Model;
use std::io;

const UNTOUCHED: i32 = 7777;

// The words of the list, a line for each clause.
fn show(rt: &impl Print, list: &[i32]) -> io::Result<()> {
    for &word in list {
        if word == 0 {
            println!(rt; "0")?;
        } else {
            print!(rt; "{word} ")?;
        }
    }
    Ok(())
}

fn answer(
    rt: &impl Print,
    refusal: u8,
    variables: usize,
    clauses: usize,
    words: usize,
) -> io::Result<()> {
    println!(rt; "refusal variables clauses words: {refusal} {variables} {clauses} {words} ")
}

// The words up to `end`, and how many of those beyond are not those that the buffer held.
fn written(rt: &impl Print, buffer: &[i32], end: usize) -> io::Result<()> {
    if end <= buffer.len() {
        show(rt, &buffer[..end])?;
        let changed = buffer[end..]
            .iter()
            .filter(|&&word| word != UNTOUCHED)
            .count();
        println!(rt; "changed beyond: {changed} ")?;
    }
    Ok(())
}

// The list for `bound`, at most `limit` words.
fn list(rt: &impl Print, name: &str, m: Model, bound: usize, limit: usize) -> io::Result<()> {
    let mut buffer = [UNTOUCHED; 4096];
    println!(rt; "{name} bound {bound} ")?;
    match emission::emit_within(m, bound, limit, &mut buffer) {
        Ok(z) => {
            answer(rt, 0, z.variables, z.clauses, z.words)?;
            written(rt, &buffer, z.words)
        }
        Err(refusal) => {
            let words = match refusal {
                EmitRefusal::BufferTooShort { words } => words,
                EmitRefusal::NotWellFormed | EmitRefusal::BoundTooLarge => 0,
            };
            answer(rt, refusal.number(), 0, 0, words)?;
            written(rt, &buffer, 0)
        }
    }
}

fn main(rt: HostRuntime) -> io::Result<()> {
    list(&rt, "A", samples::model_a(), 0, 4096)?;
    list(&rt, "A", samples::model_a(), 1, 51)?;
    list(&rt, "A", samples::model_a(), 1, 50)?;
    list(&rt, "A", samples::model_a(), 2, 4096)?;
    list(&rt, "A", samples::model_a(), 65, 4096)?;
    list(&rt, "A waiting", samples::waiting_a(), 1, 4096)?;
    list(&rt, "B", samples::model_b(), 3, 4096)?;
    list(&rt, "largest", samples::full_model(), 64, 4096)
}
