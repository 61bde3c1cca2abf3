// The cutter: the whole text and the offset it has reached, cut into tokens one by one.
ghost use Rattle.std.specs.Prelude.{◌≡◌, ◌<◌, ◌≤◌, length, drop, IfSome, IfOk, OnSome};
ghost use Rattle.std.specs.Char.{is_ascii_digit};
ghost use Rattle.std.specs.List.{prefix_len};
ghost use Rattle.reader.specs.Faults.{number_of, row, told, by_cutter};
ghost use Rattle.reader.specs.Cutting.{blanks, size, number, sign, judge, cut, behind};
ghost use Rattle.reader.specs.Grammar.{Cuts};

use crate::fault::{Cause, Fault, Layer};
use crate::token::{Kind, Token};

#[derive(Drop)]
pub struct Cutter<'a> {
    text: &'a [u8],
    at: usize,
    ghost within: { at ≤ length text.now },
}

// How many spaces stand at the front.
fn blanks(bytes: &[u8]) -> usize
    ensures value { result ≡ blanks bytes.now }
    ensures bound { result ≤ length bytes.now }
{
    bytes.iter().take_while(|b| **b == b' ').count()
}

// How many digits stand at the front.
fn digits(bytes: &[u8]) -> usize
    ensures value { result ≡ prefix_len is_ascii_digit bytes.now }
    ensures bound { result ≤ length bytes.now }
{
    bytes.iter().take_while(|b| b.is_ascii_digit()).count()
}

// How many bytes the token at the front takes: a letter with all digits behind it, or one byte.
fn size(rest: &[u8]) -> usize
    ensures value { result ≡ size rest.now }
    ensures bound { result ≤ length rest.now }
{
    match rest {
        [] => 0,
        [b'a'..=b'z', b'0'..=b'9', more @ ..] => 2 + digits(more),
        _ => 1,
    }
}

// What the digits behind a letter add to its code.
fn number(digits: &[u8]) -> Option<u64>
    ensures value { result ≡ number digits.now }
    ensures bound { IfSome result (λ n. n ≤ 100) }
{
    match digits {
        [] => Some(0),
        [d @ b'0'..=b'9'] => Some(u64::from(*d - b'0') + 1),
        [t @ b'1'..=b'9', d @ b'0'..=b'9'] => Some(
            u64::from(*t - b'0') * 10 + u64::from(*d - b'0') + 1,
        ),
        _ => None,
    }
}

// The kind that one byte is. No TryFrom: that would be of all kinds, and a variable may take three bytes.
fn sign(byte: u8) -> Option<Kind>
    ensures { result ≡ sign byte }
{
    match byte {
        b'(' => Some(Kind::Open),
        b')' => Some(Kind::Close),
        b'+' => Some(Kind::Plus),
        b'*' => Some(Kind::Star),
        _ => None,
    }
}

// What the bytes that were cut at `place` are.
fn judge(piece: &[u8], place: usize) -> Result<Option<Token>, Fault>
    ensures { told result ≡ judge place piece.now }
{
    let kind = match piece {
        [] => return Ok(None),
        [letter @ b'a'..=b'z', behind @ ..] => {
            let n = number(behind).ok_or(Layer::Cutter.fault(Cause::BadNumber, place))?;
            Kind::Variable(u64::from(*letter - b'a') * 101 + n)
        }
        [byte, ..] => sign(*byte).ok_or(Layer::Cutter.fault(Cause::NoToken, place))?,
    };
    Ok(Some(Token { kind, place }))
}

impl<'a> Cutter<'a> {
    // At the start of a text.
    pub fn new(text: &'a [u8]) -> Cutter<'a>
        ensures at { result.at ≡ 0 }
        ensures text { result.text.now ≡ text.now }
    {
        Cutter { text, at: 0 }
    }

    // The length of the whole text.
    pub fn len(&self) -> usize
        ensures { result ≡ length self.now.text.now }
    {
        self.text.len()
    }

    // The next token, if one is left; it is cut before it is judged, so the offset lies behind it in any case.
    pub fn next(&mut self) -> Result<Option<Token>, Fault>
        ensures answer { told result ≡ cut self.old.at (drop self.old.at self.old.text.now) }
        ensures after { self.new.at ≡ behind self.old.at (drop self.old.at self.old.text.now) }
        ensures text { self.new.text.now ≡ self.old.text.now }
        ensures law { Cuts (drop self.old.at self.old.text.now) (told result) (drop self.new.at self.new.text.now) }
        ensures onward { self.old.at ≤ self.new.at }
        ensures some { IfOk (told result) (λ o. OnSome o (self.old.at < self.new.at)) }
    {
        let text = self.text;
        let start = self.at;
        let place = start + blanks(&text[start..]);
        let end = place + size(&text[place..]);
        self.at = end;
        judge(&text[place..end], place)
    }
}
