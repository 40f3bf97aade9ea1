// The first line, and how long it is.
ghost use Rattle.std.specs.Prelude.{◌≡◌, length};
ghost use Rattle.buffer.specs.Buffers.{Room, Wrote};
ghost use Rattle.dimacs.specs.File.{first_line};

use decimal::{places, put_byte, put_bytes, put_number};

// The first line.
pub fn put_first_line(variables: usize, clauses: usize, out: &mut [u8], at: usize) -> usize
    requires { Room (first_line variables clauses) out.old at }
    ensures { Wrote (first_line variables clauses) out.old out.new at result }
{
    let start = put_bytes(b"p cnf ", out, at);
    let first = put_number(variables, out, start);
    let middle = put_byte(b' ', out, first);
    let second = put_number(clauses, out, middle);
    put_byte(b'\n', out, second)
}

// How many bytes the first line takes.
pub fn first_line_bytes(variables: usize, clauses: usize) -> usize
    ensures { result ≡ length (first_line variables clauses) }
{
    6 + places(variables) + 1 + places(clauses) + 1
}
