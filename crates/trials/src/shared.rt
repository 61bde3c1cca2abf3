// What the trials share: a sheet with many variables, a text that is granted or refused, and long texts.
use reader::{Layer, read};
use sheet::{Node, Sheet};
use std::alloc::{AllocError, Global};
use std::fmt::Display;
use std::process::Abort;
use std::test::Fail;

// A text, its node, and how many nodes there are then.
pub(crate) type Granted = (&'static [u8], usize, usize);

// A text, the number of its fault, and the place. The numbers are what users see, so the trials say them as numbers.
pub(crate) type Refused = (&'static [u8], u8, usize);

// Enters the first n variables, a, a0, a1 and so on, so that node k is the variable with code k.
// On a sheet that begins with them it checks that they are there.
pub(crate) fn fill(rt: &impl Abort, sheet: &mut Sheet, n: u8) -> Result<(), Fail> {
    for k in 0..n {
        let node = sheet.enter(Node::Variable(u64::from(k)))?;
        assert_eq!(rt; node, usize::from(k));
    }
    Ok(())
}

// The text is read as the node, and then there are `count` nodes. A trial that fails says its label.
pub(crate) fn granted(
    rt: &impl Abort,
    sheet: &mut Sheet,
    text: &[u8],
    node: usize,
    count: usize,
    label: impl Display + Drop,
) {
    assert_eq!(rt; read(sheet, text), Ok(node), "{label}");
    assert_eq!(rt; sheet.count(), count, "{label}");
}

// The layer that finds the faults of a number, by the numbers that the tables say.
fn layer(number: u8) -> Layer {
    match number {
        1 | 2 => Layer::Cutter,
        8 => Layer::Sheet,
        _ => Layer::Reader,
    }
}

// The text is refused, and no node comes or goes.
pub(crate) fn refused(
    rt: &impl Abort,
    sheet: &mut Sheet,
    text: &[u8],
    number: u8,
    place: usize,
    label: impl Display + Drop,
) -> Result<(), Fail> {
    let count = sheet.count();
    match read(sheet, text) {
        Ok(node) => return Err(Fail::new(format_args!("{label}: it is granted as node {node}"))),
        Err(fault) => {
            assert_eq!(rt; (fault.number(), fault.place), (number, place), "{label}");
            assert_eq!(rt; fault.layer, layer(number), "{label}");
        }
    }
    assert_eq!(rt; sheet.count(), count, "{label}");
    Ok(())
}

pub(crate) fn all_granted(rt: &impl Abort, sheet: &mut Sheet, rows: &[Granted]) {
    for (text, node, count) in rows {
        granted(
            rt,
            sheet,
            text,
            *node,
            *count,
            format_args!("text {text:?}"),
        );
    }
}

pub(crate) fn all_refused(
    rt: &impl Abort,
    sheet: &mut Sheet,
    rows: &[Refused],
) -> Result<(), Fail> {
    for (text, number, place) in rows {
        refused(
            rt,
            sheet,
            text,
            *number,
            *place,
            format_args!("text {text:?}"),
        )?;
    }
    Ok(())
}

// The bytes of each part in a row, each part as often as its number says.
pub(crate) fn woven(heap: Global, parts: &[(&[u8], u32)]) -> Result<Vec<u8>, AllocError> {
    let mut text = Vec::new(heap);
    for (bytes, times) in parts {
        for _ in 0..*times {
            text.extend_from_slice(bytes)?;
        }
    }
    Ok(text)
}
