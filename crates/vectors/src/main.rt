// Runs the published forms through both converters and prints what they answer.
#![tactic(auto)]

use std::io;
use trials::{back, both};

// Source 000, section 2: variables; terms without any.
fn variables_and_functors(rt: &impl Print) -> io::Result<()> {
    both(
        rt,
        "000 f(g(Y,Z),X,Z)",
        &[
            0x40000013, 0x40000022, 0x10000009, 0x10000008, 0x10000007, 0x10000008,
        ],
        1,
        1,
    )?;
    both(
        rt,
        "000 rt(a,f(a,b),a)",
        &[
            0x40000033, 0x20000001, 0x40000012, 0x20000001, 0x20000002, 0x20000001,
        ],
        1,
        1,
    )
}

// The same: a constant that stands twice, and a variable that does.
fn repeated_arguments(rt: &impl Print) -> io::Result<()> {
    both(
        rt,
        "000 rt(a,g(b,c),c)",
        &[
            0x40000033, 0x20000001, 0x40000022, 0x20000002, 0x20000003, 0x20000003,
        ],
        1,
        1,
    )?;
    both(
        rt,
        "000 rt(a,f(b,X),X)",
        &[
            0x40000033, 0x20000001, 0x40000012, 0x20000002, 0x10000007, 0x10000007,
        ],
        1,
        1,
    )
}

// Source 001, section 2.
fn tries(rt: &impl Print) -> io::Result<()> {
    both(
        rt,
        "001 f(X,g(Y,X),Z)",
        &[
            0x40000013, 0x10000007, 0x40000022, 0x10000009, 0x10000007, 0x10000008,
        ],
        1,
        1,
    )?;
    both(
        rt,
        "001 fig 1 f(X,a)",
        &[0x40000012, 0x10000007, 0x20000001],
        1,
        1,
    )?;
    both(
        rt,
        "001 fig 1 g(X,Y)",
        &[0x40000022, 0x10000007, 0x10000009],
        1,
        1,
    )?;
    both(
        rt,
        "001 fig 1 f(Y,1)",
        &[0x40000012, 0x10000009, 0x30000001],
        1,
        1,
    )?;
    both(
        rt,
        "001 fig 2 t(X,f(1))",
        &[0x40000042, 0x10000007, 0x40000011, 0x30000001],
        1,
        1,
    )
}

// Source 001, section 3.2 and figure 7: lists of integers.
fn lists(rt: &impl Print) -> io::Result<()> {
    both(
        rt,
        "001 fig 7 [1,2,3]",
        &[
            0x50000000, 0x30000001, 0x50000000, 0x30000002, 0x50000000, 0x30000003, 0x20000000,
        ],
        1,
        1,
    )?;
    both(
        rt,
        "001 fig 7 [1,2|3]",
        &[0x50000000, 0x30000001, 0x50000000, 0x30000002, 0x30000003],
        1,
        1,
    )
}

// Figure 9: terms and lists inside lists.
fn nested_lists(rt: &impl Print) -> io::Result<()> {
    both(
        rt,
        "001 fig 9 [f(1,2),[],g(a)]",
        &[
            0x50000000, 0x40000012, 0x30000001, 0x30000002, 0x50000000, 0x20000000, 0x50000000,
            0x40000021, 0x20000001, 0x20000000,
        ],
        1,
        1,
    )?;
    both(
        rt,
        "001 fig 9 [1,[2,3],[]]",
        &[
            0x50000000, 0x30000001, 0x50000000, 0x50000000, 0x30000002, 0x50000000, 0x30000003,
            0x20000000, 0x50000000, 0x20000000, 0x20000000,
        ],
        1,
        1,
    )
}

// A list without an end; several terms together, and none.
fn terms_together(rt: &impl Print) -> io::Result<()> {
    both(rt, "M6 [1|2]", &[0x50000000, 0x30000001, 0x30000002], 1, 1)?;
    both(
        rt,
        "two terms numbered together: X, f(Y,X)",
        &[0x10000007, 0x40000012, 0x10000009, 0x10000007],
        2,
        1,
    )?;
    both(rt, "no terms", &[0u32; 0], 0, 1)
}

// What is not m terms.
fn malformed_terms(rt: &impl Print) -> io::Result<()> {
    both(
        rt,
        "a pair without its tail",
        &[0x50000000, 0x30000001],
        1,
        1,
    )?;
    both(rt, "a cell left over", &[0x30000001, 0x30000002], 1, 1)?;
    both(
        rt,
        "a mark in pair form",
        &[0x60000000, 0x30000001, 0x70000000, 0x30000002],
        1,
        1,
    )?;
    both(rt, "a functor of arity 0", &[0x40000010], 1, 1)?;
    both(rt, "no cells for one term", &[0u32; 0], 1, 1)?;
    both(rt, "cells for no terms", &[0x30000001], 0, 1)
}

// The forms of other approaches, which are no compact form: figures 4 and 5 of source 001.
fn other_approaches(rt: &impl Print) -> io::Result<()> {
    back(
        rt,
        "001 fig 4 standard list",
        &[
            0x50000000, 0x30000001, 0x50000000, 0x30000002, 0x50000000, 0x30000003, 0x20000000,
        ],
        1,
        1,
    )?;
    back(
        rt,
        "001 fig 5 initial approach [1,2,3]",
        &[
            0x60000000, 0x30000001, 0x30000002, 0x30000003, 0x20000000, 0x70000000,
        ],
        1,
        1,
    )?;
    back(
        rt,
        "001 fig 5 initial approach [1,2|3]",
        &[0x60000000, 0x30000001, 0x30000002, 0x30000003, 0x70000000],
        1,
        1,
    )
}

// The same, of figure 6.
fn second_approach(rt: &impl Print) -> io::Result<()> {
    back(
        rt,
        "001 fig 6 second approach [1,2,3]",
        &[
            0x60000000, 0x30000001, 0x30000002, 0x70000000, 0x30000003, 0x20000000,
        ],
        1,
        1,
    )?;
    back(
        rt,
        "001 fig 6 second approach [1,2|3]",
        &[0x60000000, 0x30000001, 0x70000000, 0x30000002, 0x30000003],
        1,
        1,
    )
}

// What else is no compact form.
fn other_forms(rt: &impl Print) -> io::Result<()> {
    back(
        rt,
        "M7 BLIST EPAIR 1",
        &[0x60000000, 0x80000000, 0x30000001],
        1,
        1,
    )?;
    back(
        rt,
        "M8 BLIST 1 EPAIR []",
        &[0x60000000, 0x30000001, 0x80000000, 0x20000000],
        1,
        1,
    )?;
    back(
        rt,
        "EPAIR before a list",
        &[
            0x60000000, 0x30000001, 0x80000000, 0x60000000, 0x70000000, 0x30000002,
        ],
        1,
        1,
    )?;
    back(
        rt,
        "variables not numbered by first meeting",
        &[0x40000012, 0x10000001, 0x10000000],
        1,
        1,
    )?;
    back(rt, "one term where two are asked for", &[0x30000001], 2, 1)
}

fn main(rt: HostRuntime) -> io::Result<()> {
    variables_and_functors(&rt)?;
    repeated_arguments(&rt)?;
    tries(&rt)?;
    lists(&rt)?;
    nested_lists(&rt)?;
    terms_together(&rt)?;
    malformed_terms(&rt)?;
    other_approaches(&rt)?;
    second_approach(&rt)?;
    other_forms(&rt)
}
