//! Names, kinds and policies as members read them.
#![tactic(auto)]

ghost use Rattle.std.specs.Prelude.{◌≡◌, Some};
ghost use Rattle.names.specs.Shown.{CutsBlanks, kind_line, many_line, name_line, policy_line, sign_of, without_blanks};

use ballot::Kind;
use setup::PolicyChoice;
use std::fmt;

/// What fills a name up to its eight bytes.
const BLANK: u8 = b' ';

/// The eight bytes of a name without the blanks at its end; what is no printable sign shows as `?`.
#[derive(Clone, Copy)]
pub struct Name(pub [u8; 8]);

/// The bytes before the blanks at the end.
fn without_blanks(bytes: &[u8]) -> &[u8]
    ensures is { result.now ≡ without_blanks bytes.now }
    ensures means { CutsBlanks bytes.now result.now }
{
    let mut left = bytes;
    while let [front @ .., last] = left
        && *last == BLANK
    {
        left = front;
    }
    left
}

/// The sign that a byte shows as.
fn sign_of(b: u8) -> char
    ensures { result ≡ sign_of b }
{
    if (b' '..=b'~').contains(&b) {
        char::from(b)
    } else {
        '?'
    }
}

impl fmt::Display for Name {
    ghost output = { λ x. Some (name_line x.0) };

    fn fmt<W: fmt::Write>(&self, f: &mut fmt::Formatter<W>) -> fmt::Result {
        for b in without_blanks(&self.0) {
            let sign = sign_of(*b);
            write!(f, "{sign}")?;
        }
        Ok(())
    }
}

/// The kind of a contest, with its share.
#[derive(Clone, Copy)]
pub struct KindName(pub Kind);

impl fmt::Display for KindName {
    ghost output = { λ x. Some (kind_line x.0) };

    fn fmt<W: fmt::Write>(&self, f: &mut fmt::Formatter<W>) -> fmt::Result {
        match self.0 {
            Kind::Plurality => write!(f, "plurality"),
            Kind::Approval => write!(f, "approval"),
            Kind::Supermajority { p, q } => write!(f, "supermajority of {p}/{q}"),
        }
    }
}

/// The policy that the bets follow, with its weight.
#[derive(Clone, Copy)]
pub struct PolicyName(pub PolicyChoice);

impl fmt::Display for PolicyName {
    ghost output = { λ x. Some (policy_line x.0) };

    fn fmt<W: fmt::Write>(&self, f: &mut fmt::Formatter<W>) -> fmt::Result {
        match self.0 {
            PolicyChoice::Fixed => write!(f, "fixed"),
            PolicyChoice::Shrinking { weight } => write!(f, "shrinking, weight {weight}"),
        }
    }
}

/// A number of things, as `1 seat` and `2 seats`.
#[derive(Clone, Copy)]
pub struct Many<'a>(pub usize, pub &'a str, pub &'a str);

impl fmt::Display for Many<'_> {
    ghost output = { λ x. Some (many_line x.0 x.1.now x.2.now) };

    fn fmt<W: fmt::Write>(&self, f: &mut fmt::Formatter<W>) -> fmt::Result {
        let n = self.0;
        let word = if n == 1 { self.1 } else { self.2 };
        write!(f, "{n} {word}")
    }
}
