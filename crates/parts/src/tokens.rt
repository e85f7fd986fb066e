// What single tokens of a form count for.
ghost use Rattle.std.specs.Prelude.{◌≡◌, ◌≤◌};
ghost use Rattle.forms.specs.Cells.{arity_of};
ghost use Rattle.parts.specs.Segments.{closing, weight, Countable, CountsTo};

// Whether a token is ELIST or EPAIR, behind which stands what a list ends in.
pub fn closes(c: u32) -> bool
    ensures { result ≡ closing c }
{
    c == forms::ELIST || c == forms::EPAIR
}

// Twice one for a symbol, for ELIST and for a pair of pair form.
fn weight_of(c: u32, edition: u32) -> usize
    ensures { (result ≡ weight (arity_of edition) c) × (result ≤ 2) }
{
    if c == forms::ELIST {
        return 2;
    }
    match forms::shape_of(c, edition) {
        forms::Shape::Symbol(_) | forms::Shape::Pair => 2,
        forms::Shape::Illegal => 0,
    }
}

// The cells of the k terms whose tokens form has.
pub fn cells_of(form: &[u32], k: usize, edition: u32) -> usize
    requires { Countable (arity_of edition) form.now k }
    ensures { CountsTo (arity_of edition) form.now k result }
{
    let mut cells = 0;
    let mut taken = k;
    for &c in form {
        cells += weight_of(c, edition);
        taken += forms::arguments_of(c, edition);
    }
    cells - taken
}
