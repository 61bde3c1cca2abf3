// Trials of read where there is room: which node a text is, which nodes it enters in which order, and its faults.
use crate::shared::{Granted, Refused, all_granted, all_refused, granted};
use sheet::{Node, Sheet};
use std::alloc::Global;
use std::fmt::Display;
use std::process::Abort;
use std::test::Fail;

const X: Node = Node::Variable(2323);

const Y: Node = Node::Variable(2424);

const Z: Node = Node::Variable(2525);

// The sheet has these nodes and no others.
fn holds(rt: &impl Abort, sheet: &mut Sheet, nodes: &[Node], label: impl Display + Drop) {
    assert_eq!(rt; sheet.count(), nodes.len(), "{label}");
    for (k, node) in nodes.iter().enumerate() {
        assert_eq!(rt; sheet.enter(*node), Ok(k), "{label}");
    }
    assert_eq!(rt; sheet.count(), nodes.len(), "{label}");
}

const X_OR_Y: &[Node] = &[X, Y, Node::Join(0, 1)];

const X_OR_Y_OR_Z: &[Node] = &[X, Y, Node::Join(0, 1), Z, Node::Join(2, 3)];

const X9_AND_X10: &[Node] = &[Node::Variable(2333), Node::Variable(2334), Node::Meet(0, 1)];

// A text, and the nodes that it enters on a blank sheet, the whole term last.
type Built = (&'static [u8], &'static [Node]);

static VARIABLES: &[Built] = &[
    (b"a", &[Node::Variable(0)]),
    (b"a0", &[Node::Variable(1)]),
    (b"a9", &[Node::Variable(10)]),
    (b"a10", &[Node::Variable(11)]),
    (b"a99", &[Node::Variable(100)]),
    (b"b", &[Node::Variable(101)]),
    (b"b0", &[Node::Variable(102)]),
    (b"m50", &[Node::Variable(1263)]),
    (b"w99", &[Node::Variable(2322)]),
    (b"x", &[Node::Variable(2323)]),
    (b"x0", &[Node::Variable(2324)]),
    (b"x1", &[Node::Variable(2325)]),
    (b"x9", &[Node::Variable(2333)]),
    (b"x10", &[Node::Variable(2334)]),
    (b"x19", &[Node::Variable(2343)]),
    (b"x90", &[Node::Variable(2414)]),
    (b"x99", &[Node::Variable(2423)]),
    (b"y", &[Node::Variable(2424)]),
    (b"y99", &[Node::Variable(2524)]),
    (b"z", &[Node::Variable(2525)]),
    (b"z0", &[Node::Variable(2526)]),
    (b"z99", &[Node::Variable(2625)]),
    (b" x", &[Node::Variable(2323)]),
    (b"x ", &[Node::Variable(2323)]),
    (b"   x10   ", &[Node::Variable(2334)]),
];

static TERMS: &[Built] = &[
    (b"(+ x y)", X_OR_Y),
    (b"(+xy)", X_OR_Y),
    (b"(+x y)", X_OR_Y),
    (b"(+ xy)", X_OR_Y),
    (b"( +x y)", X_OR_Y),
    (b"(+ x y )", X_OR_Y),
    (b" (+ x y)", X_OR_Y),
    (b"(+ x y) ", X_OR_Y),
    (b"  (  +  x  y  )  ", X_OR_Y),
    (b"(* x y)", &[X, Y, Node::Meet(0, 1)]),
    (b"(+ y x)", &[Y, X, Node::Join(0, 1)]),
    (b"(* x9 x10)", X9_AND_X10),
    (b"(*x9x10)", X9_AND_X10),
    (b"(*x9 x10)", X9_AND_X10),
    (b"(+ x y z)", X_OR_Y_OR_Z),
    (b"(+xyz)", X_OR_Y_OR_Z),
    (b"(+ (+ x y) z)", X_OR_Y_OR_Z),
    (b"(+(+xy)z)", X_OR_Y_OR_Z),
    (b"(* x y z)", &[X, Y, Node::Meet(0, 1), Z, Node::Meet(2, 3)]),
    (
        b"(+ x y z x)",
        &[
            X,
            Y,
            Node::Join(0, 1),
            Z,
            Node::Join(2, 3),
            Node::Join(4, 0),
        ],
    ),
    (b"(+ x x)", &[X, Node::Join(0, 0)]),
    (b"(* x x)", &[X, Node::Meet(0, 0)]),
    (b"(+ x x x)", &[X, Node::Join(0, 0), Node::Join(1, 0)]),
    (
        b"(+ x (+ y z))",
        &[X, Y, Z, Node::Join(1, 2), Node::Join(0, 3)],
    ),
    (
        b"(* x (+ y z))",
        &[X, Y, Z, Node::Join(1, 2), Node::Meet(0, 3)],
    ),
    (
        b"(* (+ x y) z)",
        &[X, Y, Node::Join(0, 1), Z, Node::Meet(2, 3)],
    ),
    (
        b"(+ (* x y) (* x z))",
        &[
            X,
            Y,
            Node::Meet(0, 1),
            Z,
            Node::Meet(0, 3),
            Node::Join(2, 4),
        ],
    ),
    (
        b"(+ (* x y) (* x y))",
        &[X, Y, Node::Meet(0, 1), Node::Join(2, 2)],
    ),
    (
        b"(+(*xy)(*yx))",
        &[X, Y, Node::Meet(0, 1), Node::Meet(1, 0), Node::Join(2, 3)],
    ),
    (
        b"(+ x y (* x y))",
        &[X, Y, Node::Join(0, 1), Node::Meet(0, 1), Node::Join(2, 3)],
    ),
    (
        b"(+ x (* y z) x1)",
        &[
            X,
            Y,
            Z,
            Node::Meet(1, 2),
            Node::Join(0, 3),
            Node::Variable(2325),
            Node::Join(4, 5),
        ],
    ),
];

// Texts that are read one after another, so that each takes over what is there, with the node of each.
static ONE_AFTER_ANOTHER: &[Granted] = &[
    (b"(* x (+ y z))", 4, 5),
    (b"(+ (* x y) (* x z))", 7, 8),
    (b"(* x (+ y z))", 4, 8),
    (b"(+ (* x y) (* x z))", 7, 8),
    (b"(+ y z)", 3, 8),
    (b"(* x y)", 5, 8),
    (b"z", 2, 8),
    (b"(+ z y)", 8, 9),
    (b"(* y x)", 9, 10),
    (b"(+ (* x z) (* x y))", 10, 11),
    (b"(+ x y z)", 12, 13),
    (b"w", 13, 14),
];

static AFTER_THEM: &[Node] = &[
    X,
    Y,
    Z,
    Node::Join(1, 2),
    Node::Meet(0, 3),
    Node::Meet(0, 1),
    Node::Meet(0, 2),
    Node::Join(5, 6),
    Node::Join(2, 1),
    Node::Meet(1, 0),
    Node::Join(6, 5),
    Node::Join(0, 1),
    Node::Join(11, 2),
    Node::Variable(2222),
];

// Texts with a byte that starts no token.
static NO_TOKEN: &[Refused] = &[
    (b"\0", 1, 0),
    (b"\t", 1, 0),
    (b"\n", 1, 0),
    (b"\r", 1, 0),
    (b"\x1f", 1, 0),
    (b"!", 1, 0),
    (b"'", 1, 0),
    (b",", 1, 0),
    (b"-", 1, 0),
    (b"/", 1, 0),
    (b"0", 1, 0),
    (b"9", 1, 0),
    (b":", 1, 0),
    (b"?", 1, 0),
    (b"@", 1, 0),
    (b"A", 1, 0),
    (b"X", 1, 0),
    (b"Z", 1, 0),
    (b"[", 1, 0),
    (b"`", 1, 0),
    (b"{", 1, 0),
    (b"\x7f", 1, 0),
    (b"\x80", 1, 0),
    (b"\xff", 1, 0),
    (b"?x", 1, 0),
    (b"\tx", 1, 0),
    (b"1x", 1, 0),
    (b" \xff", 1, 1),
    (b"  \t  ", 1, 2),
    (b"x?", 1, 1),
    (b"x ?", 1, 2),
    (b"x\0", 1, 1),
    (b"x\t", 1, 1),
    (b"x\n", 1, 1),
    (b"x\r", 1, 1),
    (b"x\r\n", 1, 1),
    (b"x/", 1, 1),
    (b"x:", 1, 1),
    (b"xX", 1, 1),
    (b"x 1", 1, 2),
    (b"x1 2", 1, 3),
    (b"x99?", 1, 3),
    (b"(?", 1, 1),
    (b"(1", 1, 1),
    (b"(\n+ x y)", 1, 1),
    (b"(+?", 1, 2),
    (b"(+1 x)", 1, 2),
    (b"(+\nx y)", 1, 2),
    (b"(+ x\ty)", 1, 4),
    (b"(+ x ?", 1, 5),
    (b"(+ x, y)", 1, 4),
    (b"(+ x y?", 1, 6),
    (b"(+ x y ?)", 1, 7),
    (b"(+ x y)?", 1, 7),
    (b"(+ x y)\n", 1, 7),
    (b"(+ x y) 7", 1, 8),
];

// Texts with a number that has a needless zero, or three digits or more.
static BAD_NUMBER: &[Refused] = &[
    (b"x00", 2, 0),
    (b"x01", 2, 0),
    (b"x09", 2, 0),
    (b"x000", 2, 0),
    (b"x010", 2, 0),
    (b"x100", 2, 0),
    (b"x999", 2, 0),
    (b"a00", 2, 0),
    (b"a05", 2, 0),
    (b"z100", 2, 0),
    (b"x18446744073709551616", 2, 0),
    (b"  x01", 2, 2),
    (b"(x01", 2, 1),
    (b"(+x01", 2, 2),
    (b"(+ x y01)", 2, 5),
    (b"(+ x y z100)", 2, 7),
    (b"x x01", 2, 2),
    (b"xx00", 2, 1),
    (b"x9x100", 2, 2),
    (b"(+ x y) z00", 2, 8),
];

// Texts that end too early.
static UNFINISHED: &[Refused] = &[
    (b"", 3, 0),
    (b" ", 3, 1),
    (b"   ", 3, 3),
    (b"(", 3, 1),
    (b" ( ", 3, 3),
    (b"(+", 3, 2),
    (b"(*", 3, 2),
    (b"(+ ", 3, 3),
    (b"(+(", 3, 3),
    (b"(+(*", 3, 4),
    (b"(+ x", 3, 4),
    (b"(+ x ", 3, 5),
    (b"(+x10", 3, 5),
    (b"(+ x y", 3, 6),
    (b"(+ x y  ", 3, 8),
    (b"(+ x y z", 3, 8),
    (b"(+ (* x y)", 3, 10),
    (b"(+ (* x y) z", 3, 12),
];

// Texts with a token that stands where another is due.
static MISPLACED: &[Refused] = &[
    (b")", 4, 0),
    (b"  )", 4, 2),
    (b"+", 4, 0),
    (b"*", 4, 0),
    (b" + x y", 4, 1),
    (b"(x", 4, 1),
    (b"(x10", 4, 1),
    (b"(x + y)", 4, 1),
    (b"()", 4, 1),
    (b"( )", 4, 2),
    (b"((", 4, 1),
    (b"( (", 4, 2),
    (b"((+ x y))", 4, 1),
    (b"((((((((((((((((((", 4, 1),
    (b"(++ x y)", 4, 2),
    (b"(+* x y)", 4, 2),
    (b"(*+", 4, 2),
    (b"(+ x + y)", 4, 5),
    (b"(+ x * y)", 4, 5),
    (b"(+ x y +)", 4, 7),
    (b"(+ (x y) z)", 4, 4),
    (b"(+ () x)", 4, 4),
    (b"(+ x ((", 4, 6),
    (b"(+ (* x y) + z)", 4, 11),
    (b"(+ (* x * y) z)", 4, 8),
];

// Texts with a list that closes with fewer than two terms.
static TOO_SHORT: &[Refused] = &[
    (b"(+)", 6, 2),
    (b"(*)", 6, 2),
    (b"( + )", 6, 4),
    (b"(+ x)", 6, 4),
    (b"(*x)", 6, 3),
    (b"(* x10 )", 6, 7),
    (b"(+ (* x) y)", 6, 7),
    (b"(+ (*) y)", 6, 5),
    (b"(+ x (*))", 6, 7),
    (b"(+ x (* y))", 6, 9),
    (b"(+ (* x y))", 6, 10),
];

// Texts with a token that follows the term.
static TRAILING: &[Refused] = &[
    (b"x)", 7, 1),
    (b"x )", 7, 2),
    (b"x(", 7, 1),
    (b"x+", 7, 1),
    (b"x*y", 7, 1),
    (b"xy", 7, 1),
    (b"x y", 7, 2),
    (b"x x", 7, 2),
    (b"x1y", 7, 2),
    (b"x9x10", 7, 2),
    (b"  x  y", 7, 5),
    (b"(+ x y))", 7, 7),
    (b"(+ x y) )", 7, 8),
    (b"(+ x y)z", 7, 7),
    (b"(+ x y) z", 7, 8),
    (b"(+ x y) +", 7, 8),
    (b"(+ x y)(* x y)", 7, 7),
];

// Texts with several faults, of which the first counts.
static FIRST_OF_SEVERAL: &[Refused] = &[
    (b"? )", 1, 0),
    (b"?x01", 1, 0),
    (b"?(", 1, 0),
    (b"x01?", 2, 0),
    (b"x100(", 2, 0),
    (b"x00 x00", 2, 0),
    (b") x01", 4, 0),
    (b"+?", 4, 0),
    (b"() x00", 4, 1),
    (b"(x ?", 4, 1),
    (b"(x01 ?", 2, 1),
    (b"(++ ?", 4, 2),
    (b"(+ x + ?", 4, 5),
    (b"(+) ?", 6, 2),
    (b"(+ x) y01", 6, 4),
    (b"(+ x) y", 6, 4),
    (b"(+ (* x) ?", 6, 7),
    (b"x) ?", 7, 1),
    (b"x y z01", 7, 2),
    (b"x ((", 7, 2),
    (b"x y?", 7, 2),
];

// The texts enter their nodes, and read again they enter none.
fn all_built(rt: &impl Abort, heap: Global, rows: &[Built]) -> Result<(), Fail> {
    let mut sheet = Sheet::blank(heap)?;
    for (text, nodes) in rows {
        sheet.keep(0);
        let last = nodes.len().saturating_sub(1);
        let count = nodes.len();
        granted(
            rt,
            &mut sheet,
            text,
            last,
            count,
            format_args!("text {text:?}"),
        );
        holds(rt, &mut sheet, nodes, format_args!("text {text:?}"));
        granted(
            rt,
            &mut sheet,
            text,
            last,
            count,
            format_args!("again {text:?}"),
        );
    }
    Ok(())
}

#[test]
fn variables(rt: HostRuntime) -> Result<(), Fail> {
    all_built(&rt, rt.alloc(), VARIABLES)
}

#[test]
fn terms(rt: HostRuntime) -> Result<(), Fail> {
    all_built(&rt, rt.alloc(), TERMS)
}

#[test]
fn one_after_another(rt: HostRuntime) -> Result<(), Fail> {
    let mut sheet = Sheet::blank(rt.alloc())?;
    all_granted(&rt, &mut sheet, ONE_AFTER_ANOTHER);
    holds(&rt, &mut sheet, AFTER_THEM, "one after another");
    Ok(())
}

// The texts are refused on a blank sheet, and on one that has x, y and their join the other way round.
fn all_faulty(rt: &impl Abort, heap: Global, rows: &[Refused]) -> Result<(), Fail> {
    let mut sheet = Sheet::blank(heap)?;
    all_refused(rt, &mut sheet, rows)?;
    granted(rt, &mut sheet, b"(+ y x)", 2, 3, "(+ y x)");
    all_refused(rt, &mut sheet, rows)?;
    holds(
        rt,
        &mut sheet,
        &[Y, X, Node::Join(0, 1)],
        "after the faults",
    );
    Ok(())
}

#[test]
fn no_tokens(rt: HostRuntime) -> Result<(), Fail> {
    all_faulty(&rt, rt.alloc(), NO_TOKEN)
}

#[test]
fn bad_numbers(rt: HostRuntime) -> Result<(), Fail> {
    all_faulty(&rt, rt.alloc(), BAD_NUMBER)
}

#[test]
fn unfinished_texts(rt: HostRuntime) -> Result<(), Fail> {
    all_faulty(&rt, rt.alloc(), UNFINISHED)
}

#[test]
fn misplaced_tokens(rt: HostRuntime) -> Result<(), Fail> {
    all_faulty(&rt, rt.alloc(), MISPLACED)
}

#[test]
fn short_lists(rt: HostRuntime) -> Result<(), Fail> {
    all_faulty(&rt, rt.alloc(), TOO_SHORT)
}

#[test]
fn trailing_tokens(rt: HostRuntime) -> Result<(), Fail> {
    all_faulty(&rt, rt.alloc(), TRAILING)
}

#[test]
fn several_faults(rt: HostRuntime) -> Result<(), Fail> {
    all_faulty(&rt, rt.alloc(), FIRST_OF_SEVERAL)
}
