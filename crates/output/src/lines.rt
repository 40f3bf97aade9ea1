// The forms of a line and their places.
ghost use Rattle.std.specs.Prelude.{◌≡◌, cond, Some, None};
ghost use Rattle.output.specs.Lines.{is_values, form_of, in_place, stage_after};

use crate::literals;

// The form of a line; any other line is malformed.
#[derive(Clone, Copy, Debug, PartialEq, Eq)]
pub enum LineForm {
    Comment,
    Satisfiable,
    Unsatisfiable,
    Values,
}

// What may come next: the s line; lines of literals; after the closing 0 or `s UNSATISFIABLE`, nothing but comments.
#[derive(Clone, Copy, Debug, PartialEq, Eq)]
pub enum Stage {
    BeforeStatus,
    InValues,
    Closed,
    Refuted,
}

// A line of v and literals, one space apart.
fn is_values(l: &[u8]) -> bool
    ensures { result ≡ is_values l.now }
{
    l.strip_prefix(b"v ").is_some_and(literals::are_literals)
}

// The form of a line without its LF.
pub fn form(l: &[u8]) -> Option<LineForm>
    ensures { result ≡ form_of l.now }
{
    if l.starts_with(b"c ") {
        Some(LineForm::Comment)
    } else if l == b"s SATISFIABLE".as_slice() {
        Some(LineForm::Satisfiable)
    } else if l == b"s UNSATISFIABLE".as_slice() {
        Some(LineForm::Unsatisfiable)
    } else if is_values(l) {
        Some(LineForm::Values)
    } else {
        None
    }
}

impl Stage {
    // What may come after a line of the form, if it may come next.
    pub fn after(self, form: Option<LineForm>) -> Option<Stage>
        ensures { result ≡ cond (in_place self form) (Some (stage_after self form)) None }
    {
        match (self, form?) {
            (_, LineForm::Comment) => Some(self),
            (Stage::BeforeStatus, LineForm::Satisfiable) => Some(Stage::InValues),
            (Stage::BeforeStatus, LineForm::Unsatisfiable) => Some(Stage::Refuted),
            (Stage::InValues, LineForm::Values) => Some(Stage::InValues),
            _ => None,
        }
    }
}
