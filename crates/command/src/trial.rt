// A trial of two nodes in a lattice, as the words of `try` ask for it.
ghost use Rattle.std.specs.Prelude.{◌≡◌};
ghost use Rattle.std.specs.Option.{option_map};
ghost use Rattle.text.specs.Words.{words_of};
ghost use Rattle.command.specs.Trials.{numbered_site, site_of, sited, trial_of, trial_asked};

use text::{number, split_word};

// The lattice that the trial is made in: sets, the divisors of a number, or the frame that was closed last.
#[derive(Clone, Copy, PartialEq, Eq, Debug)]
pub enum Site {
    Sets,
    Divisors(u32),
    Frame,
}

// Whether u is below v, with the slots that the words `slots` tell.
#[derive(Clone, Copy)]
pub struct Trial<'a> {
    pub site: Site,
    pub u: usize,
    pub v: usize,
    pub slots: &'a [u8],
}

// The divisors of the number that stands first, and what stands behind it.
fn numbered_site(words: &[u8]) -> Option<(Site, &[u8])>
    ensures { option_map sited result ≡ numbered_site (words_of words.now) }
{
    let (d, rest) = split_word(words)?;
    Some((Site::Divisors(u32::try_from(number(d)?).ok()?), rest))
}

// The site, and what stands behind it: sets, divisors D or frame.
fn site_of(words: &[u8]) -> Option<(Site, &[u8])>
    ensures { option_map sited result ≡ site_of (words_of words.now) }
{
    let (first, rest) = split_word(words)?;
    match first {
        b"sets" => Some((Site::Sets, rest)),
        b"divisors" => numbered_site(rest),
        b"frame" => Some((Site::Frame, rest)),
        _ => None,
    }
}

// The site, two nodes, and the slots.
pub(crate) fn trial_of(words: &[u8]) -> Option<Trial<'_>>
    ensures { option_map trial_asked result ≡ trial_of (words_of words.now) }
{
    let (site, rest) = site_of(words)?;
    let (u, rest) = split_word(rest)?;
    let (v, rest) = split_word(rest)?;
    Some(Trial {
        site,
        u: number(u)? as usize,
        v: number(v)? as usize,
        slots: rest,
    })
}
