// The lines of a model text up to its edges: the numbers of the model, its counters, its invariants, the number of edges.
ghost use Rattle.std.specs.Prelude.{◌≡◌};
ghost use Rattle.text.specs.lines.Store.{with_counter, with_invariant};
ghost use Rattle.text.specs.lines.Lines.{locations_line, init_line, target_line, clocks_line, vars_line, var_line, inv_line, edges_line};
ghost use Rattle.text.specs.lines.Sequence.{read_head, read_counters, read_invariants};
ghost use Rattle.text.specs.lines.Readings.{Placed, Reads};

use crate::lines::Reading;
use crate::{ReadRefusal, atoms, bytes, line};
use model::{Atom, Counter, Invariant, Model};

fn with_counter(m: Model, i: usize, c: Counter) -> Model
    ensures { result ≡ with_counter m i c }
{
    let mut next = m;
    bytes::put(&mut next.counters, i, c);
    next
}

fn with_invariant(m: Model, l: usize, atoms: [Atom; Model::ATOMS]) -> Model
    ensures { result ≡ with_invariant m l atoms }
{
    let mut next = m;
    bytes::put(&mut next.invariants, l, Invariant { atoms });
    next
}

fn locations_line(text: &[u8], r: Reading) -> Result<Reading, ReadRefusal>
    requires { Placed text.now r }
    ensures { Reads locations_line text.now r result }
{
    r.line(text, b"locations=", |v, m| {
        let locations = line::number(v, 1, Model::LOCATIONS as u8)?;
        Ok(Model { locations, ..m })
    })
}

fn init_line(text: &[u8], r: Reading) -> Result<Reading, ReadRefusal>
    requires { Placed text.now r }
    ensures { Reads init_line text.now r result }
{
    r.line(text, b"init=", |v, m| {
        let initial = line::reference(v, m.locations)?;
        Ok(Model { initial, ..m })
    })
}

fn target_line(text: &[u8], r: Reading) -> Result<Reading, ReadRefusal>
    requires { Placed text.now r }
    ensures { Reads target_line text.now r result }
{
    r.line(text, b"target=", |v, m| {
        let target = line::reference(v, m.locations)?;
        Ok(Model { target, ..m })
    })
}

fn clocks_line(text: &[u8], r: Reading) -> Result<Reading, ReadRefusal>
    requires { Placed text.now r }
    ensures { Reads clocks_line text.now r result }
{
    r.line(text, b"clocks=", |v, m| {
        let clocks = line::number(v, 0, Model::CLOCKS as u8)?;
        Ok(Model { clocks, ..m })
    })
}

fn vars_line(text: &[u8], r: Reading) -> Result<Reading, ReadRefusal>
    requires { Placed text.now r }
    ensures { Reads vars_line text.now r result }
{
    r.line(text, b"vars=", |v, m| {
        let vars = line::number(v, 0, Model::COUNTERS as u8)?;
        Ok(Model { vars, ..m })
    })
}

fn var_line(text: &[u8], i: usize, r: Reading) -> Result<Reading, ReadRefusal>
    requires { Placed text.now r }
    ensures { Reads (var_line i) text.now r result }
{
    r.line(
        text,
        b"var=",
        |v, m| Ok(with_counter(m, i, line::counter(v)?)),
    )
}

fn inv_line(text: &[u8], l: usize, r: Reading) -> Result<Reading, ReadRefusal>
    requires { Placed text.now r }
    ensures { Reads (inv_line l) text.now r result }
{
    r.line(text, b"inv=", |v, m| {
        let atoms = atoms::atom_value(v, m.clocks, m.vars, false)?;
        Ok(with_invariant(m, l, atoms))
    })
}

fn edges_line(text: &[u8], r: Reading) -> Result<Reading, ReadRefusal>
    requires { Placed text.now r }
    ensures { Reads edges_line text.now r result }
{
    r.line(text, b"edges=", |v, m| {
        let used = line::number(v, 0, Model::EDGES as u8)?;
        Ok(Model { used, ..m })
    })
}

fn read_head(text: &[u8], r: Reading) -> Result<Reading, ReadRefusal>
    requires { Placed text.now r }
    ensures { Reads read_head text.now r result }
{
    let a = locations_line(text, r)?;
    let b = init_line(text, a)?;
    let c = target_line(text, b)?;
    let d = clocks_line(text, c)?;
    vars_line(text, d)
}

fn read_counters(text: &[u8], r: Reading) -> Result<Reading, ReadRefusal>
    requires { Placed text.now r }
    ensures { Reads read_counters text.now r result }
{
    let mut q = r;
    for i in 0..r.model.vars as usize {
        q = var_line(text, i, q)?;
    }
    Ok(q)
}

fn read_invariants(text: &[u8], r: Reading) -> Result<Reading, ReadRefusal>
    requires { Placed text.now r }
    ensures { Reads read_invariants text.now r result }
{
    let mut q = r;
    for l in 0..r.model.locations as usize {
        q = inv_line(text, l, q)?;
    }
    Ok(q)
}

// All lines before those of the first edge.
pub fn read_declarations(text: &[u8], r: Reading) -> Result<Reading, ReadRefusal>
    requires { Placed text.now r }
    ensures { Reads (λ p. edges_line (read_invariants (read_counters (read_head p)))) text.now r result }
{
    let a = read_head(text, r)?;
    let b = read_counters(text, a)?;
    let c = read_invariants(text, b)?;
    edges_line(text, c)
}
