// The names of variables.
ghost use Rattle.std.specs.Prelude.{◌≡◌};
ghost use Rattle.reader.specs.Names.{variable_code, Naming};

use crate::cutter::Cutter;
use crate::token::Kind;

// The code of the variable that a text is, with nothing beside it but spaces.
pub fn variable(text: &[u8]) -> Option<u64>
    ensures value { result ≡ variable_code text.now }
    ensures law { Naming text.now result }
{
    let mut cutter = Cutter::new(text);
    let token = cutter.next().ok()??;
    match (token.kind, cutter.next()) {
        (Kind::Variable(code), Ok(None)) => Some(code),
        _ => None,
    }
}
