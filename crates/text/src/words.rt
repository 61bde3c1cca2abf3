// The words of a line, and the numbers that words write.
ghost use Rattle.std.specs.Prelude.{◌≡◌, ◌<◌, ◌≤◌, length, IfSome, MatchOption};
ghost use Rattle.std.specs.Option.{option_map};
ghost use Rattle.std.specs.Str.{bytes_eq};
ghost use Rattle.text.specs.Words.{reach, trimmed, first_word, words_of, spread, pointed, none};
ghost use Rattle.text.specs.Words.{digit_behind, numeral, one_number, two_numbers};

// Where the first `stop` stands, if there is one.
pub(crate) fn first(bytes: &[u8], stop: u8) -> Option<usize>
    ensures { MatchOption result (reach stop bytes.now ≡ length bytes.now) (λ n. (n ≡ reach stop bytes.now) × (n < length bytes.now)) }
{
    bytes.iter().position(|b| *b == stop)
}

// How many bytes stand before the first `stop`: all of them, if there is none.
pub fn until(bytes: &[u8], stop: u8) -> usize
    ensures value { result ≡ reach stop bytes.now }
    ensures bound { result ≤ length bytes.now }
{
    first(bytes, stop).unwrap_or(bytes.len())
}

// The line from its first word on.
fn trim(line: &[u8]) -> &[u8]
    ensures { result.now ≡ trimmed line.now }
{
    let mut rest = line;
    while let [b' ', more @ ..] = rest {
        rest = more;
    }
    rest
}

// The first word of a line, and what stands behind it.
pub fn split_word(line: &[u8]) -> Option<(&[u8], &[u8])>
    ensures value { option_map pointed result ≡ first_word line.now }
    ensures words { words_of line.now ≡ spread words_of (option_map pointed result) }
    ensures shorter { IfSome result (λ p. length p.1.now < length line.now) }
{
    let words = trim(line);
    if words.is_empty() {
        return None;
    }
    Some(words.split_at(until(words, b' ')))
}

// Whether a word is `name`: the two sides of `==` have one type, so the name is compared by its bytes.
pub fn is(word: &[u8], name: &str) -> bool
    ensures { result ≡ bytes_eq word.now name.now }
{
    word == name.as_bytes()
}

// Whether a line has no word.
pub fn no_words(line: &[u8]) -> bool
    ensures { result ≡ none (words_of line.now) }
{
    split_word(line).is_none()
}

// The number that the words are: one word, which writes a number.
pub fn one_number(words: &[u8]) -> Option<u64>
    ensures { result ≡ one_number (words_of words.now) }
{
    let (a, rest) = split_word(words)?;
    if no_words(rest) { number(a) } else { None }
}

// The two numbers that the words are: two words, which write a number each. Not one function of a count with the above:
// a caller would take an array apart.
pub fn two_numbers(words: &[u8]) -> Option<(u64, u64)>
    ensures { result ≡ two_numbers (words_of words.now) }
{
    let (a, rest) = split_word(words)?;
    let (b, rest) = split_word(rest)?;
    if !no_words(rest) {
        return None;
    }
    Some((number(a)?, number(b)?))
}

// The number that a word writes in decimal digits, if it is below 2^64. Zeros may stand in front: 007 is 7.
// A sign may not, so this is no `parse`, which takes a +.
pub fn number(word: &[u8]) -> Option<u64>
    ensures { result ≡ numeral word.now }
{
    if word.is_empty() {
        return None;
    }
    let mut n = 0u64;
    for b in word {
        n = appended(n, *b)?;
    }
    Some(n)
}

// The number whose last digit is `byte`, behind the digits of `n`.
fn appended(n: u64, byte: u8) -> Option<u64>
    ensures { result ≡ digit_behind n byte }
{
    match byte {
        b'0'..=b'9' => n.checked_mul(10)?.checked_add(u64::from(byte - b'0')),
        _ => None,
    }
}
