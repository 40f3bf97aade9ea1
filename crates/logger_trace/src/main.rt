// The lost log entry of logger model B: its run of three steps, state by state, and the walker's verdict.
#![tactic(auto)]

use model::{Model, State};
use std::io;

fn show(rt: &impl Print, what: &str, s: State) -> io::Result<()> {
    let [v0, ..] = s.counters;
    let [x0, ..] = s.clocks;
    println!(rt; "{what:25}location {}, v0 {v0}, x0 {x0}", s.location)
}

// Shows the state after one step byte; a byte that is refused leaves the state.
fn take(rt: &impl Print, m: Model, s: State, byte: u8, what: &str) -> io::Result<State> {
    let t = walk::step(m, s, byte).unwrap_or(s);
    show(rt, what, t)?;
    Ok(t)
}

fn main(rt: HostRuntime) -> io::Result<()> {
    let m = samples::model_b();
    let s = m.initial_state();
    show(&rt, "initially:", s)?;
    let t = take(&rt, m, s, 5, "5, edge 0, extend:")?;
    let u = take(&rt, m, t, 3, "3, delay 3:")?;
    take(&rt, m, u, 7, "7, edge 2, watchdog:")?;
    let refusal = walk::walk(m, &[5, 3, 7]).map_or_else(|e| e.number(), |()| 0);
    println!(rt; "the run 5 3 7: refusal {refusal}, so a boot of 3 steps reaches the target")
}
