// The lengths of the buffers that the readers are lent, as a ladder: for which length which rung. Making a buffer
// clears it, so short terms and short forms get short ones. An array has its length in its type, so each rung is an arm
// of its own: `with_form` and `with_terms` run a closure with buffers of the rung. A form has at most three tokens for
// two cells, and its terms at most two cells for a token; none that is loaded has more than MOST_CELLS.
ghost use Rattle.std.specs.Prelude.{◌≤◌};
ghost use Rattle.convert.specs.Holds.{RoomForCells, RoomForTokens};

use basis::limits::MOST_CELLS;

// ---- for terms of pair form: few cells, some, or as many as there may be; then their forms

pub const FEW_CELLS: usize = 16;

pub const SOME_CELLS: usize = 128;

pub const FORM_OF_FEW: usize = 3 * FEW_CELLS / 2;

pub const FORM_OF_SOME: usize = 3 * SOME_CELLS / 2;

pub const FORM_OF_MOST: usize = 3 * MOST_CELLS / 2;

// The rung for n cells: how many its buffers are for. Above the last it is n, for which there are the buffers for the
// most. It is compared by <=: where it was asked whether it is this rung, the compiler made a switch of the arms and no
// longer knew which lengths an arm is for, and compacting lists took 1.06 times as long.
pub fn cells_rung(n: usize) -> usize
    ensures { n ≤ result }
{
    if n <= FEW_CELLS {
        return FEW_CELLS;
    }
    if n <= SOME_CELLS {
        return SOME_CELLS;
    }
    n
}

// Runs with buffers of the rung for the variables and the form of n cells: few, or as many as there may be.
pub fn with_form<R, F: FnMut(&mut [u32], &mut [u32]) -> R>(n: usize, run: &mut F) -> R
    requires { (vars form : _) → RoomForCells n vars.now form.now → F.pre run.old vars form }
    ensures { (vars form vars_left form_left : _) × RoomForCells n vars.now form.now
        × F.step run.old vars form result vars_left form_left run.new }
{
    if cells_rung(n) <= FEW_CELLS {
        return run(&mut [0u32; FEW_CELLS], &mut [0u32; FORM_OF_FEW]);
    }
    run(&mut [0u32; MOST_CELLS], &mut [0u32; FORM_OF_MOST])
}

// ---- for compact forms: few tokens, some, many, or as many as there may be; then the terms that they load to

pub const FEW_TOKENS: usize = 16;

pub const SOME_TOKENS: usize = 64;

pub const MANY_TOKENS: usize = 128;

pub const TERMS_OF_FEW: usize = 2 * FEW_TOKENS;

pub const TERMS_OF_SOME: usize = 2 * SOME_TOKENS;

pub const TERMS_OF_MANY: usize = 2 * MANY_TOKENS;

pub const TERMS_OF_MOST: usize = MOST_CELLS;

// The rung for n tokens, in the same way.
pub fn tokens_rung(n: usize) -> usize
    ensures { n ≤ result }
{
    if n <= FEW_TOKENS {
        return FEW_TOKENS;
    }
    if n <= SOME_TOKENS {
        return SOME_TOKENS;
    }
    if n <= MANY_TOKENS {
        return MANY_TOKENS;
    }
    n
}

// Runs with a buffer of the rung for the terms of n tokens.
pub fn with_terms<R, F: FnMut(&mut [u32]) -> R>(n: usize, run: &mut F) -> R
    requires { (lent : _) → RoomForTokens n lent.now → F.pre run.old lent }
    ensures { (lent : _) × (left : _) × RoomForTokens n lent.now × F.step run.old lent result left run.new }
{
    let rung = tokens_rung(n);
    if rung <= FEW_TOKENS {
        return run(&mut [0u32; TERMS_OF_FEW]);
    }
    if rung <= SOME_TOKENS {
        return run(&mut [0u32; TERMS_OF_SOME]);
    }
    run(&mut [0u32; TERMS_OF_MOST])
}
