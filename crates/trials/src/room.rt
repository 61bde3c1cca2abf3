// Trials of read where room is short: the last nodes that fit, the first that does not, and what a refused text leaves.
use crate::shared::{Granted, Refused, all_granted, all_refused, fill};
use sheet::Sheet;
use std::alloc::Global;
use std::process::Abort;
use std::test::Fail;

// A sheet with so many variables, on which some texts were read before; the texts that are refused then,
// and groups of texts that are granted then, each group on the sheet without the others' nodes.
#[derive(Clone, Copy)]
struct Setting {
    variables: u8,
    before: &'static [Granted],
    refused: &'static [Refused],
    granted: &'static [&'static [Granted]],
}

// On a full sheet of the variables a, a0 and so on to a58.
static FULL: Setting = Setting {
    variables: 60,
    before: &[],
    refused: &[
        (b"b", 8, 0),
        (b"  b", 8, 2),
        (b"a59", 8, 0),
        (b"b?", 8, 0),
        (b"b)", 8, 0),
        (b"b01", 2, 0),
        (b"a?", 1, 1),
        (b"a)", 7, 1),
        (b"(b", 4, 1),
        (b"(+ b", 8, 3),
        (b"(+ b ?", 8, 3),
        (b"(+ a", 3, 4),
        (b"(+ a)", 6, 4),
        (b"(+ a ?", 1, 5),
        (b"(+ a b", 8, 5),
        (b"(+ a b01", 2, 5),
        (b"(+ a +", 4, 5),
        (b"(+ a a0)", 8, 5),
        (b"(* a a0)", 8, 5),
        (b"(+ a a0", 8, 5),
        (b"(+ a a0?", 8, 5),
        (b"(+ a   a0  ?", 8, 7),
        (b"(+aa)", 8, 3),
        (b"(+ (* a a0) a1)", 8, 8),
        (b"(+ a (* a0 a1))", 8, 11),
        (b"(+ a (* a0 b))", 8, 11),
        (b"(+ a (* a0))", 6, 10),
        (b"(+a(+a(+a(+a(+a(+a(+a(+a(+a(+a(+a(+a(+a(+a(+a(+a(", 5, 48),
    ],
    granted: &[&[(b"a", 0, 60), (b" a58 ", 59, 60)]],
};

// On a full sheet of the variables a, a0 and so on to a57, and the join of a and a0.
static FULL_WITH_JOIN: Setting = Setting {
    variables: 59,
    before: &[(b"(+ a a0)", 59, 60)],
    refused: &[
        (b"(+ a0 a)", 8, 6),
        (b"(* a a0)", 8, 5),
        (b"(+ a a0 a1)", 8, 8),
        (b"(+ a a0 b)", 8, 8),
        (b"(+ a a0 ?", 1, 8),
        (b"(+ a a0", 3, 7),
        (b"(+ a a0) b", 7, 9),
        (b"(* a (+ a a0))", 8, 5),
        (b"(* a (+ a a0)", 8, 5),
        (b"(* a (+ a a0)?", 8, 5),
        (b"(* a (+ a a0", 3, 12),
        (b"(* a (+ a a0 ?", 1, 13),
        (b"(* a   (  + a a0 ) )", 8, 7),
        (b"(* (+ a a0) a)", 8, 12),
        (b"(* (+ a a0) (+ a a0))", 8, 12),
        (b"(* (+ a a0))", 6, 11),
    ],
    granted: &[&[(b"(+ a a0)", 59, 60), (b"a57", 58, 60)]],
};

// On a sheet of the variables a, a0 and so on to a57, so that one node still fits.
static ONE_FITS: Setting = Setting {
    variables: 59,
    before: &[],
    refused: &[
        (b"(+ a b)", 8, 5),
        (b"(+ b a)", 8, 5),
        (b"(+ b b)", 8, 5),
        (b"(+ b c)", 8, 5),
        (b"(+ b", 3, 4),
        (b"b c", 7, 2),
        (b"b?", 1, 1),
        (b"(+ a a0?", 1, 7),
        (b"(+ a a0", 3, 7),
        (b"(+ a a0 a1)", 8, 8),
        (b"(+ a a0 b)", 8, 8),
        (b"(+ a a0) b", 7, 9),
        (b"(* (+ a a0) a)", 8, 12),
        (b"(* a (+ a a0))", 8, 5),
        (b"(* a0 (+ a a0))", 8, 6),
        (b"(* (+ a a0) (+ a a0))", 8, 12),
        (b"(* (+ a a0) (+ a0 a))", 8, 18),
    ],
    granted: &[
        &[(b"b", 59, 60), (b"b", 59, 60)],
        &[(b"(* a57 a)", 59, 60), (b"(* a57 a)", 59, 60)],
    ],
};

// The last node was a variable.
static AFTER_VARIABLE: Setting = Setting {
    variables: 59,
    before: &[(b"b", 59, 60)],
    refused: &[(b"c", 8, 0), (b"(+ b b)", 8, 5)],
    granted: &[],
};

// The last node was a meet.
static AFTER_MEET: Setting = Setting {
    variables: 59,
    before: &[(b"(* a57 a)", 59, 60)],
    refused: &[(b"(* a a57)", 8, 5), (b"(+ a57 a)", 8, 7)],
    granted: &[],
};

// On a sheet of the variables a, a0 and so on to a56, so that two nodes still fit.
static TWO_FIT: Setting = Setting {
    variables: 58,
    before: &[],
    refused: &[
        (b"(+ b c)", 8, 5),
        (b"(+ b c d)", 8, 5),
        (b"(+ a b c)", 8, 7),
        (b"(+ a b a)", 8, 7),
        (b"(+ a b?", 1, 6),
        (b"(* a (+ b c))", 8, 10),
        (b"(* a (+ a b))", 8, 5),
        (b"(* (+ a b) a)", 8, 11),
        (b"(+ a a0 a1 a2)", 8, 11),
    ],
    granted: &[
        &[(b"(+ a b)", 59, 60), (b"b", 58, 60), (b"(+ a b)", 59, 60)],
        &[(b"(+ b b)", 59, 60), (b"b", 58, 60)],
        &[(b"(* (+ a a0) a1)", 59, 60), (b"(+ a a0)", 58, 60)],
    ],
};

// On a sheet of the variables a, a0 and so on to a55, so that three nodes still fit.
static THREE_FIT: Setting = Setting {
    variables: 57,
    before: &[],
    refused: &[
        (b"(+ b c d)", 8, 7),
        (b"(+ b c b)", 8, 7),
        (b"(+ (* b c) a)", 8, 11),
        (b"(+ b c?", 1, 6),
    ],
    granted: &[&[(b"(+ b c)", 59, 60), (b"b", 57, 60), (b"c", 58, 60)]],
};

// No room, x and y are there and their join is not: it is missed before the next byte is looked at.
static JOIN_MISSED: Setting = Setting {
    variables: 58,
    before: &[(b"x", 58, 59), (b"y", 59, 60)],
    refused: &[(b"(+ x y?", 8, 5), (b"(+ x ?", 1, 5), (b"(+ x?", 1, 4)],
    granted: &[],
};

// No room, and the join is there.
static JOIN_THERE: Setting = Setting {
    variables: 57,
    before: &[(b"(+ x y)", 59, 60)],
    refused: &[(b"(+ x y?", 1, 6), (b"(+ x y z", 8, 7)],
    granted: &[],
};

fn tried(rt: &impl Abort, heap: Global, setting: &Setting) -> Result<(), Fail> {
    let mut sheet = Sheet::blank(heap)?;
    fill(rt, &mut sheet, setting.variables)?;
    all_granted(rt, &mut sheet, setting.before);
    let count = sheet.count();
    all_refused(rt, &mut sheet, setting.refused)?;
    fill(rt, &mut sheet, setting.variables)?;
    for rows in setting.granted {
        all_granted(rt, &mut sheet, rows);
        sheet.keep(count);
    }
    Ok(())
}

#[test]
fn full(rt: HostRuntime) -> Result<(), Fail> {
    tried(&rt, rt.alloc(), &FULL)
}

#[test]
fn full_with_join(rt: HostRuntime) -> Result<(), Fail> {
    tried(&rt, rt.alloc(), &FULL_WITH_JOIN)
}

#[test]
fn one_fits(rt: HostRuntime) -> Result<(), Fail> {
    tried(&rt, rt.alloc(), &ONE_FITS)?;
    tried(&rt, rt.alloc(), &AFTER_VARIABLE)?;
    tried(&rt, rt.alloc(), &AFTER_MEET)
}

#[test]
fn more_fit(rt: HostRuntime) -> Result<(), Fail> {
    tried(&rt, rt.alloc(), &TWO_FIT)?;
    tried(&rt, rt.alloc(), &THREE_FIT)
}

#[test]
fn join_missed(rt: HostRuntime) -> Result<(), Fail> {
    tried(&rt, rt.alloc(), &JOIN_MISSED)?;
    tried(&rt, rt.alloc(), &JOIN_THERE)
}
