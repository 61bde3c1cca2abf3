// The lines of a script.
ghost use Rattle.std.specs.Prelude.{◌≡◌, ◌<◌, length, IfSome};
ghost use Rattle.std.specs.Option.{option_map};
ghost use Rattle.text.specs.Words.{spread, pointed};
ghost use Rattle.text.specs.Lines.{lines_of, chomped, first_line};

use crate::words::first;

// The line without the carriage return that it may end in.
fn chomp(line: &[u8]) -> &[u8]
    ensures { result.now ≡ chomped line.now }
{
    match line {
        [front @ .., b'\r'] => front,
        _ => line,
    }
}

// The first line of a script, and what stands behind it. A carriage return is dropped only before a line feed,
// so a last line without a line feed keeps one.
pub fn split_line(script: &[u8]) -> Option<(&[u8], &[u8])>
    ensures value { option_map pointed result ≡ first_line script.now }
    ensures lines { lines_of script.now ≡ spread lines_of (option_map pointed result) }
    ensures shorter { IfSome result (λ p. length p.1.now < length script.now) }
{
    match first(script, b'\n') {
        Some(end) => Some((chomp(&script[..end]), &script[end + 1..])),
        None if script.is_empty() => None,
        None => Some((script, &[])),
    }
}
