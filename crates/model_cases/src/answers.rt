// The questions: each writes one line, the numbers of the answer.
use crate::numbers::Numbers;
use model::{Model, State};
use std::io;

pub(crate) fn unknown(rt: &impl Print) -> io::Result<()> {
    rt.println("no such question")
}

// 10: the refusal's number, 0 or 20.
pub(crate) fn formed(rt: &impl Print, m: Model) -> io::Result<()> {
    match totals::ceiling_of(m) {
        Ok(_) => println!(rt; "0"),
        Err(refusal) => println!(rt; "{}", refusal.number()),
    }
}

// 11: number, M.
pub(crate) fn ceiling(rt: &impl Print, m: Model) -> io::Result<()> {
    match totals::ceiling_of(m) {
        Ok(c) => println!(rt; "0 {c}"),
        Err(refusal) => println!(rt; "{} 0", refusal.number()),
    }
}

// 12 bound: number, S, H, N.
pub(crate) fn totals_for(rt: &impl Print, m: Model, bound: u8) -> io::Result<()> {
    match totals::totals_of(m, bound as usize) {
        Ok(t) => println!(rt; "0 {} {} {}", t.state, t.choices, t.variables),
        Err(refusal) => println!(rt; "{} 0 0 0", refusal.number()),
    }
}

// 13 bytes: number, place.
pub(crate) fn walked(rt: &impl Print, m: Model, n: Numbers) -> io::Result<()> {
    if n.last < 80 {
        match walk::walk(m, &n.values[1..n.last + 1]) {
            Ok(()) => println!(rt; "0 0")?,
            Err(refusal) => println!(rt; "{} {}", refusal.number(), refusal.place())?,
        }
    }
    Ok(())
}

// 14 location counters clocks byte: number, and the state that is handed back in the same order.
pub(crate) fn stepped(rt: &impl Print, m: Model, v: [u8; 80]) -> io::Result<()> {
    let s = State {
        location: v[1],
        counters: [v[2], v[3], v[4], v[5]],
        clocks: [v[6], v[7], v[8], v[9]],
    };
    let (number, t) = match walk::step(m, s, v[10]) {
        Ok(t) => (0, t),
        Err(refusal) => (refusal.number(), s),
    };
    print!(rt; "{number} {}", t.location)?;
    for shown in t.counters.iter().chain(t.clocks.iter()) {
        print!(rt; " {shown}")?;
    }
    rt.print("\n")
}
