// Numbered pair form, whose tokens are the cells of the terms: read and loaded by one scan with one sum of what is due.
ghost use Rattle.std.specs.Prelude.{◌≡◌, ◌+◌, ◌*◌, ◌^◌, ◌≤◌, ◌<◌, IfSome};
ghost use Rattle.forms.specs.Cells.{shape_of, arity_of};
ghost use Rattle.form_reader.specs.Loading.{in_order};
ghost use Rattle.convert.specs.Scans.{due_past};
ghost use Rattle.convert.specs.Holds.{RoomForForm, RoomForTerms, ReadsPairs, CountsPairs};

use super::Loaded;
use basis::limits::{MOST_CELLS, MOST_VARIABLES};
use basis::refusals::Refusal;
use forms::{Form, Shape, due_after};

// What is due after the cell c; None where it stands in no term.
fn due_past(due: usize, c: u32, edition: u32) -> Option<usize>
    requires { (0 < due) × (due ≤ 2 ^ 20) }
    ensures { (result ≡ due_past due (shape_of (arity_of edition) c)) × IfSome result (λ next. next ≤ due + 254) }
{
    match forms::shape_of(c, edition) {
        Shape::Symbol(k) => Some(due_after(due, k)),
        Shape::Pair => Some(due_after(due, 2)),
        Shape::Illegal => None,
    }
}

// Whether a cell is no variable, or one of the `count` that were met, or the next.
fn in_order(c: u32, count: usize) -> bool
    ensures { result ≡ in_order count c }
{
    !forms::is_variable(c) || forms::payload_of(c) <= count
}

// Reads the m terms in s, and leaves them numbered at the start of form.
pub fn read_cells(
    s: &[u32],
    m: usize,
    vars: &mut [u32],
    form: &mut [u32],
    edition: u32,
) -> Result<Form, Refusal>
    requires { RoomForForm s.now vars.old form.old }
    ensures { ReadsPairs edition m s.now vars.new form.new result }
{
    let n = s.len();
    if MOST_CELLS < n {
        return Err(Refusal::Length);
    }
    if n < m {
        return Err(Refusal::Term);
    }
    let mut due = m;
    let mut count = 0;
    for (at, &c) in s.iter().enumerate() {
        if due == 0 {
            return Err(Refusal::Term);
        }
        due = due_past(due, c, edition).ok_or(Refusal::Term)?;
        count = pair_reader::store(c, vars, count, form, at);
    }
    if 0 < due {
        return Err(Refusal::Term);
    }
    if MOST_VARIABLES < count {
        return Err(Refusal::Variables);
    }
    Ok(Form {
        tokens: n,
        variables: count,
    })
}

// Loads the m terms that stand numbered in s, and leaves them at the start of cells.
// One scan for both, by a closure for each cell, was tried: that `cells[at]` may be written at any call stayed open.
pub fn load_cells(s: &[u32], m: usize, cells: &mut [u32], edition: u32) -> Option<Loaded>
    requires { RoomForTerms s.now cells.old }
    ensures { CountsPairs edition m s.now cells.new result }
{
    let n = s.len();
    if MOST_CELLS < n || n < m {
        return None;
    }
    let mut due = m;
    let mut count = 0;
    for (at, &c) in s.iter().enumerate() {
        if due == 0 {
            return None;
        }
        due = due_past(due, c, edition)?;
        if !in_order(c, count) {
            return None;
        }
        cells[at] = c;
        count = form_reader::met_after(c, count);
    }
    if 0 < due || MOST_VARIABLES < count {
        return None;
    }
    Some(Loaded {
        cells: n,
        variables: count,
    })
}
