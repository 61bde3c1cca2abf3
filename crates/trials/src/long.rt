// Trials of read on deep texts and on long ones.
use crate::shared::{granted, refused, woven};
use sheet::Sheet;
use std::alloc::Global;
use std::process::Abort;
use std::test::Fail;

// Parts that follow one another, each as often as its number says.
type Parts = &'static [(&'static [u8], u32)];

// A text by its parts and, from a blank sheet, the node that it is; every node that it enters stands before that one.
type Granted = (Parts, usize);

// A text by its parts, and on a blank sheet the number of its fault, as users see it, and the place.
type Refused = (Parts, u8, usize);

// A list in the second place of a list, as (+x(+xx)), has its brackets at 0, 3, 6 and so on.
// One in the first place, as (+(+xx)x), has them at 0, 2, 4 and so on.
// In (+ x x x .. part k is at 2 k + 1 and makes node k - 1, so that sixty parts fill the sheet.
static GRANTED: &[Granted] = &[
    (&[(b"(+x", 15), (b"x", 1), (b")", 15)], 15),
    (&[(b"(+x", 16), (b"x", 1), (b")", 16)], 16),
    (&[(b"( + x ", 16), (b"x", 1), (b" )", 16)], 16),
    (&[(b"(*", 16), (b"x", 1), (b"x)", 16)], 16),
    // Seventeen brackets in all, sixteen open at most.
    (&[(b"(+x", 16), (b"x)(+xx)", 1), (b")", 15)], 17),
    // Long texts.
    (&[(b" ", 99_999), (b"x", 1)], 0),
    (&[(b"x", 1), (b" ", 99_999)], 0),
    (&[(b"(", 1), (b" ", 99_993), (b"+ x x)", 1)], 1),
    (&[(b"(+ x x", 1), (b" ", 99_993), (b")", 1)], 1),
    (&[(b"(+", 1), (b" x", 60), (b")", 1)], 59),
    (&[(b"(+", 1), (b" x", 60), (b" ", 99_877), (b")", 1)], 59),
];

static REFUSED: &[Refused] = &[
    (&[(b"(+x", 17), (b"x", 1), (b")", 17)], 5, 48),
    (&[(b"(+", 17), (b"x", 1), (b"x)", 17)], 5, 32),
    (&[(b"( + x ", 17), (b"x", 1), (b" )", 17)], 5, 96),
    (&[(b"(+x", 16), (b"(", 1)], 5, 48),
    (&[(b"(+x", 16), (b"(?", 1)], 5, 48),
    (&[(b"(+x", 16), (b"((", 1)], 5, 48),
    (&[(b"(+x", 16), (b"x  (", 1)], 5, 51),
    (&[(b"(+x", 16), (b"x)(+x(", 1)], 5, 53),
    // The seventeenth where a sign is due.
    (&[(b"(+x", 15), (b"((", 1)], 4, 46),
    (&[(b"(+", 15), (b"((", 1)], 4, 31),
    (&[(b"(", 17)], 4, 1),
    // Other faults where sixteen are open.
    (&[(b"(+x", 16)], 3, 48),
    (&[(b"(+x", 16), (b"?", 1)], 1, 48),
    (&[(b"(+x", 16), (b"x01", 1)], 2, 48),
    (&[(b"(+x", 16), (b"+", 1)], 4, 48),
    (&[(b"(+x", 16), (b")", 1)], 6, 48),
    (&[(b"(+x", 16), (b"x", 1), (b")", 15)], 3, 64),
    (&[(b"(+x", 16), (b"x", 1), (b")", 17)], 7, 65),
    // Long texts.
    (&[(b" ", 100_000)], 3, 100_000),
    (&[(b"(+ x", 1), (b" ", 99_996)], 3, 100_000),
    (&[(b" ", 99_999), (b"?", 1)], 1, 99_999),
    (&[(b" ", 99_999), (b")", 1)], 4, 99_999),
    (&[(b"x", 1), (b" ", 99_998), (b"x", 1)], 7, 99_999),
    (&[(b"x", 1), (b" ", 99_998), (b"\n", 1)], 1, 99_999),
    (&[(b"(+ x", 1), (b" ", 99_995), (b")", 1)], 6, 99_999),
    (&[(b"x", 1), (b"1", 99_999)], 2, 0),
    (&[(b"x", 1), (b"0", 99_999)], 2, 0),
    (&[(b"x", 100_000)], 7, 1),
    (&[(b"(", 100_000)], 4, 1),
    (&[(b")", 100_000)], 4, 0),
    (&[(b"+", 100_000)], 4, 0),
    (&[(b"7", 100_000)], 1, 0),
    (&[(b"(+", 50_000)], 5, 32),
    (&[(b"(+", 1), (b" x", 60)], 3, 122),
    (&[(b"(+", 1), (b" x", 61), (b")", 1)], 8, 123),
    (&[(b"(+", 1), (b" x", 50_000)], 8, 123),
    (&[(b"(+", 1), (b" x", 50_000), (b")", 1)], 8, 123),
];

// Not those of `shared`: a text is woven here and freed before the next, which a row of bytes is not.
fn all_granted(rt: &impl Abort, heap: Global, rows: &[Granted]) -> Result<(), Fail> {
    let mut sheet = Sheet::blank(heap)?;
    for (row, (parts, node)) in rows.iter().enumerate() {
        let text = woven(heap, parts)?;
        let count = node.saturating_add(1);
        sheet.keep(0);
        granted(
            rt,
            &mut sheet,
            &text,
            *node,
            count,
            format_args!("row {row}"),
        );
    }
    Ok(())
}

fn all_refused(rt: &impl Abort, heap: Global, rows: &[Refused]) -> Result<(), Fail> {
    let mut sheet = Sheet::blank(heap)?;
    for (row, (parts, number, place)) in rows.iter().enumerate() {
        let text = woven(heap, parts)?;
        refused(
            rt,
            &mut sheet,
            &text,
            *number,
            *place,
            format_args!("row {row}"),
        )?;
    }
    Ok(())
}

#[test]
fn texts(rt: HostRuntime) -> Result<(), Fail> {
    all_granted(&rt, rt.alloc(), GRANTED)?;
    all_refused(&rt, rt.alloc(), REFUSED)
}
