// The slots that the words of a trial tell.
ghost use Rattle.std.specs.Prelude.{◌≡◌, [], replicate, IfOk, vec_items, slice_set};
ghost use Rattle.std.specs.Option.{option_map};
ghost use Rattle.sheet.specs.View.{nodes_of};
ghost use Rattle.text.specs.Words.{words_of};
ghost use Rattle.command.specs.Slots.{worth, assignment, assigned, listed, named, up_to, slots_of};

use reader::variable;
use sheet::{Node, Sheet};
use std::alloc::{AllocError, Global};
use text::{Words, number, split_word, until};

// The number behind the =.
fn worth(behind: &[u8]) -> Option<u64>
    ensures { result ≡ worth behind.now }
{
    let (_, digits) = behind.split_first()?;
    number(digits)
}

// NAME=NUMBER: the code of the variable, and the number.
fn assignment(word: &[u8]) -> Option<(u64, u64)>
    ensures { result ≡ assignment word.now }
{
    let (name, behind) = word.split_at(until(word, b'='));
    Some((variable(name)?, worth(behind)?))
}

// Puts the number of NAME=NUMBER into the variable's slot, if it has one.
fn assign(sheet: &Sheet, slots: &mut [u64], word: &[u8]) -> Option<()>
    ensures { option_map (λ _. slots.new) result ≡ assigned (nodes_of sheet.now) slots.old (assignment word.now) }
{
    let (code, value) = assignment(word)?;
    if let Some(k) = sheet.find(Node::Variable(code)) {
        put(slots, k, value);
    }
    Some(())
}

// Slot k becomes x, if there is one. By index: of a write through a slice's get_mut no proof knows the elements.
fn put(slots: &mut [u64], k: usize, x: u64)
    ensures { slots.new ≡ slice_set slots.old k x }
{
    if k < slots.len() {
        slots[k] = x;
    }
}

// The numbers that the words write.
fn listed(heap: Global, words: &[u8]) -> Result<Option<Vec<u64>>, AllocError>
    ensures { IfOk result (λ o. option_map vec_items o ≡ listed [] (words_of words.now)) }
{
    let mut slots = Vec::new(heap);
    for word in Words::new(words) {
        let Some(n) = number(word) else {
            return Ok(None);
        };
        slots.push(n)?;
    }
    Ok(Some(slots))
}

// How many nodes are numbered up to m.
fn up_to(sheet: &Sheet, m: usize) -> usize
    ensures { result ≡ up_to (nodes_of sheet.now) m }
{
    sheet.count().min(m.saturating_add(1))
}

// A slot for each node up to m: the number that the words give its variable, or else 0.
fn named(
    heap: Global,
    sheet: &Sheet,
    m: usize,
    words: &[u8],
) -> Result<Option<Vec<u64>>, AllocError>
    ensures { IfOk result (λ o. option_map vec_items o ≡ named (nodes_of sheet.now) (replicate (up_to (nodes_of sheet.now) m) 0) (words_of words.now)) }
{
    let mut slots = vec![in heap; 0u64; up_to(sheet, m)]?;
    for word in Words::new(words) {
        let Some(()) = assign(sheet, &mut slots, word) else {
            return Ok(None);
        };
    }
    Ok(Some(slots))
}

// The slots that the words tell, for a trial of nodes up to m; None, if they are no slots.
pub fn slots_of(
    heap: Global,
    sheet: &Sheet,
    m: usize,
    words: &[u8],
) -> Result<Option<Vec<u64>>, AllocError>
    ensures { IfOk result (λ o. option_map vec_items o ≡ slots_of (nodes_of sheet.now) m (words_of words.now)) }
{
    match split_word(words) {
        None => Ok(Some(Vec::new(heap))),
        Some((b"with", rest)) => named(heap, sheet, m, rest),
        Some(_) => listed(heap, words),
    }
}
