// Trials of enter: what it answers at each edge, and how many nodes there are then.
use crate::shared::fill;
use sheet::{Node, Refusal, Sheet};
use std::process::Abort;
use std::test::Fail;

const MOST: usize = usize::MAX;

// A node, what enter answers to it, and how many nodes there are then.
type Step = (Node, Result<usize, Refusal>, usize);

fn follow(rt: &impl Abort, sheet: &mut Sheet, steps: &[Step]) {
    for (row, (node, answer, count)) in steps.iter().enumerate() {
        assert_eq!(rt; sheet.enter(*node), *answer, "row {row}");
        assert_eq!(rt; sheet.count(), *count, "row {row}");
    }
}

// From a blank sheet: codes and numbers at their edges, and nodes that differ in the kind or the order alone.
static FROM_BLANK: &[Step] = &[
    (Node::Variable(2626), Err(Refusal::BadCode), 0),
    (Node::Variable(u64::MAX), Err(Refusal::BadCode), 0),
    (Node::Meet(0, 0), Err(Refusal::NoNode(0)), 0),
    (Node::Join(0, 0), Err(Refusal::NoNode(0)), 0),
    (Node::Meet(0, 1), Err(Refusal::NoNode(0)), 0),
    (Node::Join(1, 0), Err(Refusal::NoNode(1)), 0),
    (Node::Join(MOST, 0), Err(Refusal::NoNode(MOST)), 0),
    (Node::Variable(2625), Ok(0), 1),
    (Node::Variable(2625), Ok(0), 1),
    (Node::Variable(2626), Err(Refusal::BadCode), 1),
    (Node::Meet(0, 1), Err(Refusal::NoNode(1)), 1),
    (Node::Join(1, 0), Err(Refusal::NoNode(1)), 1),
    (Node::Variable(0), Ok(1), 2),
    (Node::Variable(2625), Ok(0), 2),
    (Node::Meet(1, 2), Err(Refusal::NoNode(2)), 2),
    (Node::Meet(2, 1), Err(Refusal::NoNode(2)), 2),
    (Node::Meet(2, 2), Err(Refusal::NoNode(2)), 2),
    (Node::Meet(2, 3), Err(Refusal::NoNode(2)), 2),
    (Node::Meet(3, 2), Err(Refusal::NoNode(3)), 2),
    (Node::Meet(0, MOST), Err(Refusal::NoNode(MOST)), 2),
    (Node::Meet(2, MOST), Err(Refusal::NoNode(2)), 2),
    (Node::Meet(MOST, 2), Err(Refusal::NoNode(MOST)), 2),
    (Node::Join(1, 2), Err(Refusal::NoNode(2)), 2),
    (Node::Join(2, 1), Err(Refusal::NoNode(2)), 2),
    (Node::Join(2, 3), Err(Refusal::NoNode(2)), 2),
    (Node::Join(3, 2), Err(Refusal::NoNode(3)), 2),
    (Node::Join(1, MOST), Err(Refusal::NoNode(MOST)), 2),
    (
        Node::Join(MOST - 1, MOST),
        Err(Refusal::NoNode(MOST - 1)),
        2,
    ),
    (Node::Join(MOST, MOST - 1), Err(Refusal::NoNode(MOST)), 2),
    (Node::Meet(0, 1), Ok(2), 3),
    (Node::Meet(1, 0), Ok(3), 4),
    (Node::Meet(0, 0), Ok(4), 5),
    (Node::Meet(1, 1), Ok(5), 6),
    (Node::Join(0, 1), Ok(6), 7),
    (Node::Join(1, 0), Ok(7), 8),
    (Node::Join(0, 0), Ok(8), 9),
    (Node::Join(9, 8), Err(Refusal::NoNode(9)), 9),
    (Node::Join(8, 9), Err(Refusal::NoNode(9)), 9),
    (Node::Join(8, 8), Ok(9), 10),
    (Node::Meet(9, 9), Ok(10), 11),
    (Node::Variable(1), Ok(11), 12),
    (Node::Variable(2624), Ok(12), 13),
    (Node::Variable(2627), Err(Refusal::BadCode), 13),
    (Node::Variable(2625), Ok(0), 13),
    (Node::Variable(0), Ok(1), 13),
    (Node::Meet(0, 1), Ok(2), 13),
    (Node::Meet(1, 0), Ok(3), 13),
    (Node::Meet(0, 0), Ok(4), 13),
    (Node::Meet(1, 1), Ok(5), 13),
    (Node::Join(0, 1), Ok(6), 13),
    (Node::Join(1, 0), Ok(7), 13),
    (Node::Join(0, 0), Ok(8), 13),
    (Node::Join(8, 8), Ok(9), 13),
    (Node::Meet(9, 9), Ok(10), 13),
    (Node::Variable(1), Ok(11), 13),
    (Node::Variable(2624), Ok(12), 13),
];

// On a sheet with the variables 0 to 57: the last two nodes, and then each kind of call on a full sheet.
static UNTIL_FULL: &[Step] = &[
    (Node::Meet(58, 0), Err(Refusal::NoNode(58)), 58),
    (Node::Meet(0, 57), Ok(58), 59),
    (Node::Join(58, 59), Err(Refusal::NoNode(59)), 59),
    (Node::Join(58, 58), Ok(59), 60),
    (Node::Variable(58), Err(Refusal::Full), 60),
    (Node::Variable(2625), Err(Refusal::Full), 60),
    (Node::Meet(0, 0), Err(Refusal::Full), 60),
    (Node::Meet(57, 0), Err(Refusal::Full), 60),
    (Node::Meet(58, 58), Err(Refusal::Full), 60),
    (Node::Join(0, 57), Err(Refusal::Full), 60),
    (Node::Join(59, 59), Err(Refusal::Full), 60),
    (Node::Variable(0), Ok(0), 60),
    (Node::Variable(57), Ok(57), 60),
    (Node::Meet(0, 57), Ok(58), 60),
    (Node::Join(58, 58), Ok(59), 60),
    (Node::Meet(60, 0), Err(Refusal::NoNode(60)), 60),
    (Node::Meet(0, 60), Err(Refusal::NoNode(60)), 60),
    (Node::Join(59, 60), Err(Refusal::NoNode(60)), 60),
    (Node::Join(60, 61), Err(Refusal::NoNode(60)), 60),
    (Node::Join(61, 60), Err(Refusal::NoNode(61)), 60),
    (Node::Meet(MOST, 60), Err(Refusal::NoNode(MOST)), 60),
    (Node::Meet(0, MOST), Err(Refusal::NoNode(MOST)), 60),
    (Node::Variable(2626), Err(Refusal::BadCode), 60),
    (Node::Variable(u64::MAX), Err(Refusal::BadCode), 60),
];

// On a sheet with the variables 0 to 58: the last node is a variable.
static LAST_VARIABLE: &[Step] = &[
    (Node::Variable(58), Ok(58), 59),
    (Node::Variable(59), Ok(59), 60),
    (Node::Variable(60), Err(Refusal::Full), 60),
    (Node::Variable(59), Ok(59), 60),
    (Node::Variable(58), Ok(58), 60),
    (Node::Join(59, 58), Err(Refusal::Full), 60),
];

#[test]
fn from_blank(rt: HostRuntime) -> Result<(), Fail> {
    let mut sheet = Sheet::blank(rt.alloc())?;
    assert_eq!(rt; sheet.count(), 0);
    follow(&rt, &mut sheet, FROM_BLANK);
    Ok(())
}

#[test]
fn until_full(rt: HostRuntime) -> Result<(), Fail> {
    let mut sheet = Sheet::blank(rt.alloc())?;
    fill(&rt, &mut sheet, 58)?;
    follow(&rt, &mut sheet, UNTIL_FULL);
    sheet.keep(0);
    fill(&rt, &mut sheet, 59)?;
    follow(&rt, &mut sheet, LAST_VARIABLE);
    Ok(())
}

#[test]
fn numbers(rt: HostRuntime) {
    assert_eq!(rt; Refusal::Full.number(), 8);
    assert_eq!(rt; Refusal::NoNode(0).number(), 9);
    assert_eq!(rt; Refusal::NoNode(MOST).number(), 9);
    assert_eq!(rt; Refusal::BadCode.number(), 10);
}
