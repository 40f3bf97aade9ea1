// The lines of the edges of a model text.
ghost use Rattle.std.specs.Prelude.{◌≡◌};
ghost use Rattle.model.specs.declared.Edge.{Edge};
ghost use Rattle.model.specs.Record.{edge_at};
ghost use Rattle.text.specs.lines.Store.{with_edge, with_source, with_edge_target, with_label, with_guard, with_updates, with_resets};
ghost use Rattle.text.specs.lines.Lines.{from_line, to_line, label_line, when_line, set_line, reset_line};
ghost use Rattle.text.specs.lines.Sequence.{read_edge, read_edges};
ghost use Rattle.text.specs.lines.Readings.{Placed, Reads};

use crate::lines::Reading;
use crate::{ReadRefusal, atoms, line, resets, updates};
use model::{Atom, ClockUpdate, Edge, Model};
use updates::SetSlots;

// The model with edge e changed, if it has such an edge.
fn with_edge<F: FnOnce(Edge) -> Edge>(m: Model, e: usize, change: F) -> Model
    requires { F.IsAlwaysCallable change }
    ensures { (h : Edge → Edge) → ((x r : Edge) → F.post change x r → r ≡ h x) → result ≡ with_edge m e (h (edge_at m e)) }
{
    let mut next = m;
    if e < Model::EDGES {
        next.edges[e] = change(next.edges[e]);
    }
    next
}

fn with_source(m: Model, e: usize, source: u8) -> Model
    ensures { result ≡ with_source m e source }
{
    with_edge(m, e, |edge| Edge { source, ..edge })
}

fn with_edge_target(m: Model, e: usize, target: u8) -> Model
    ensures { result ≡ with_edge_target m e target }
{
    with_edge(m, e, |edge| Edge { target, ..edge })
}

fn with_label(m: Model, e: usize, label: u8) -> Model
    ensures { result ≡ with_label m e label }
{
    with_edge(m, e, |edge| Edge { label, ..edge })
}

fn with_guard(m: Model, e: usize, guard: [Atom; Model::ATOMS]) -> Model
    ensures { result ≡ with_guard m e guard }
{
    with_edge(m, e, |edge| Edge { guard, ..edge })
}

fn with_updates(m: Model, e: usize, slots: SetSlots) -> Model
    ensures { result ≡ with_updates m e slots.updates slots.order }
{
    with_edge(
        m,
        e,
        |edge| Edge {
            updates: slots.updates,
            order: slots.order,
            ..edge
        },
    )
}

fn with_resets(m: Model, e: usize, resets: [ClockUpdate; Model::CLOCKS]) -> Model
    ensures { result ≡ with_resets m e resets }
{
    with_edge(m, e, |edge| Edge { resets, ..edge })
}

fn from_line(text: &[u8], e: usize, r: Reading) -> Result<Reading, ReadRefusal>
    requires { Placed text.now r }
    ensures { Reads (from_line e) text.now r result }
{
    r.line(text, b"from=", |v, m| {
        Ok(with_source(m, e, line::reference(v, m.locations)?))
    })
}

fn to_line(text: &[u8], e: usize, r: Reading) -> Result<Reading, ReadRefusal>
    requires { Placed text.now r }
    ensures { Reads (to_line e) text.now r result }
{
    r.line(text, b"to=", |v, m| {
        Ok(with_edge_target(m, e, line::reference(v, m.locations)?))
    })
}

fn label_line(text: &[u8], e: usize, r: Reading) -> Result<Reading, ReadRefusal>
    requires { Placed text.now r }
    ensures { Reads (label_line e) text.now r result }
{
    r.line(text, b"label=", |v, m| {
        Ok(with_label(m, e, line::number(v, 0, Model::LABEL)?))
    })
}

fn when_line(text: &[u8], e: usize, r: Reading) -> Result<Reading, ReadRefusal>
    requires { Placed text.now r }
    ensures { Reads (when_line e) text.now r result }
{
    r.line(text, b"when=", |v, m| {
        let guard = atoms::atom_value(v, m.clocks, m.vars, true)?;
        Ok(with_guard(m, e, guard))
    })
}

fn set_line(text: &[u8], e: usize, r: Reading) -> Result<Reading, ReadRefusal>
    requires { Placed text.now r }
    ensures { Reads (set_line e) text.now r result }
{
    r.line(text, b"set=", |v, m| {
        Ok(with_updates(m, e, updates::set_value(v, m.vars)?))
    })
}

fn reset_line(text: &[u8], e: usize, r: Reading) -> Result<Reading, ReadRefusal>
    requires { Placed text.now r }
    ensures { Reads (reset_line e) text.now r result }
{
    r.line(text, b"reset=", |v, m| {
        Ok(with_resets(m, e, resets::reset_value(v, m.clocks)?))
    })
}

fn read_edge(text: &[u8], e: usize, r: Reading) -> Result<Reading, ReadRefusal>
    requires { Placed text.now r }
    ensures { Reads (read_edge e) text.now r result }
{
    let a = from_line(text, e, r)?;
    let b = to_line(text, e, a)?;
    let c = label_line(text, e, b)?;
    let d = when_line(text, e, c)?;
    let f = set_line(text, e, d)?;
    reset_line(text, e, f)
}

// All lines of the edges that are used.
pub fn read_edges(text: &[u8], r: Reading) -> Result<Reading, ReadRefusal>
    requires { Placed text.now r }
    ensures { Reads read_edges text.now r result }
{
    let mut q = r;
    for e in 0..r.model.used as usize {
        q = read_edge(text, e, q)?;
    }
    Ok(q)
}
