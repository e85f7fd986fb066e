// The readers of compact form, which write pair form and check the variables' numbers as they read. None writes beyond
// its limit: where what is still due would pass it, the form is malformed, however much of it is left. A list within a
// list is due its own end, so lists are read no deeper than terms that fit can hold them.
#![tactic(auto)]

ghost use Rattle.std.specs.Prelude.{false, true, ◌≡◌, ◌+◌, ◌^◌, ◌<◌};
ghost use Rattle.form_reader.specs.Loading.{met_after, FormRoom, AtTail, ReadsForms, ReadsRest};

use forms::Place;

// How many variables are met after token c of a numbered form, where `count` were met before it.
pub fn met_after(c: u32, count: usize) -> usize
    requires { count + 1 < 2 ^ 64 }
    ensures { result ≡ met_after count c }
{
    if forms::is_variable(c) && forms::payload_of(c) == count {
        return count + 1;
    }
    count
}

// Reads the forms of n terms and writes their pair forms, up to the limit.
#[cycle(ending_list_terms)]
pub fn terms(
    s: &[u32],
    from: Place,
    n: usize,
    out: &mut [u32],
    edition: u32,
    limit: usize,
) -> Option<Place>
    requires { FormRoom s.now from n limit out.old }
    ensures { ReadsForms edition s.now limit from n out.old out.new result }
{
    // A turn passes a cell or a whole list, so `at` goes on by what was read.
    let mut at = from.at;
    let mut due = n;
    let mut count = from.count;
    let mut to = from.to;
    while 0 < due {
        if s.len() <= at {
            return None;
        }
        let c = s[at];
        if c == forms::BLIST {
            let behind = forms::due_after(due, 0);
            let elements = Place {
                at: at + 1,
                to,
                count,
            };
            let after = list(s, elements, out, edition, limit - behind)?;
            at = after.at;
            to = after.to;
            count = after.count;
            due = behind;
            continue;
        }
        if forms::is_variable(c) {
            if count < forms::payload_of(c) {
                return None;
            }
            out[to] = c;
            count = met_after(c, count);
            at += 1;
            to += 1;
            due = forms::due_after(due, 0);
            continue;
        }
        let forms::Shape::Symbol(k) = forms::shape_of(c, edition) else {
            return None;
        };
        if limit < to + due + k {
            return None;
        }
        out[to] = c;
        at += 1;
        to += 1;
        due = forms::due_after(due, k);
    }
    Some(Place { at, to, count })
}

// Reads the elements of a list, behind BLIST, and writes the list.
// Most elements are constants, and take no call of the term reader.
#[cycle(ending_list_terms)]
fn list(s: &[u32], from: Place, out: &mut [u32], edition: u32, limit: usize) -> Option<Place>
    requires { FormRoom s.now from 1 limit out.old }
    ensures { ReadsRest edition s.now limit from false out.old out.new result }
{
    let mut at = from.at;
    let mut some = false;
    let mut count = from.count;
    let mut to = from.to;
    loop {
        if s.len() <= at {
            return None;
        }
        let c = s[at];
        if forms::is_constant(c) {
            if limit < to + 3 {
                return None;
            }
            out[to] = forms::PAIR;
            out[to + 1] = c;
            at += 1;
            some = true;
            to += 2;
            continue;
        }
        if c == forms::EPAIR {
            if !some {
                return None;
            }
            let tail = Place { at, to, count };
            return ending(s, tail, out, edition, limit);
        }
        if limit < to + 3 {
            return None;
        }
        out[to] = forms::PAIR;
        if c == forms::ELIST {
            let last = Place {
                at: at + 1,
                to: to + 1,
                count,
            };
            let after = terms(s, last, 1, out, edition, limit - 1)?;
            out[after.to] = forms::NIL;
            return Some(Place {
                to: after.to + 1,
                ..after
            });
        }
        let element = Place {
            at,
            to: to + 1,
            count,
        };
        let after = terms(s, element, 1, out, edition, limit - 1)?;
        at = after.at;
        some = true;
        count = after.count;
        to = after.to;
    }
}

// Reads the EPAIR at which it stands and the term that a list ends in behind it: neither [] nor a list.
#[cycle(ending_list_terms)]
fn ending(s: &[u32], from: Place, out: &mut [u32], edition: u32, limit: usize) -> Option<Place>
    requires { FormRoom s.now from 1 limit out.old × AtTail s.now from }
    ensures { ReadsRest edition s.now limit from true out.old out.new result }
{
    let at = from.at;
    if s.len() <= at + 1 {
        return None;
    }
    let c = s[at + 1];
    if c == forms::NIL || c == forms::BLIST {
        return None;
    }
    let behind = Place { at: at + 1, ..from };
    terms(s, behind, 1, out, edition, limit)
}
