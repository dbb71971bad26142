// Numbers in figures, without noughts in front.
ghost use Rattle.std.specs.Prelude.{◌≡◌, ◌+◌, ◌≤◌, [], ◌∷◌, length, drop};
ghost use Rattle.plural.specs.Figures.{figures, figures_on, number_in};

use itoa::write_digits;
use std::marker::Model;

// A number's figures, at the end of a buffer.
#[derive(Debug, Drop)]
pub struct Figures {
    digits: [u8; 20],
    start: usize,
}

impl Model for Figures {
    ghost use Rattle.std.specs.Prelude.{ℕ, List, ◌≤◌, drop};

    ghost Value = { List ℕ };

    ghost view = { λ f. drop f.start f.digits };

    ghost invariant = { λ f. f.start ≤ 20 };
}

impl Figures {
    // The most figures of a number below 2^64.
    pub const MOST: usize = 20;

    pub fn new(n: u64) -> Figures
        ensures value { result ≡ figures n }
        ensures most { length result ≤ 20 }
    {
        // Made in place, so that its figures are copied once less.
        let mut figures = Figures {
            digits: [b'0'; Self::MOST],
            start: Self::MOST,
        };
        figures.start = write_figures(n, &mut figures.digits);
        figures
    }

    pub fn as_slice(&self) -> &[u8]
        ensures { result.now ≡ self.now }
    {
        &self.digits[self.start..]
    }
}

// Writes a number's figures at the end of `to`, and says where they begin.
#[tactic(auto, using(crate::proofs::Written::few_decimal, crate::proofs::Written::figures_is, crate::proofs::Written::ends_figures))]
pub fn write_figures(n: u64, to: &mut [u8; 20]) -> usize
    ensures figures { drop result to.new ≡ figures n }
    ensures len { result + length (figures n) ≡ 20 }
{
    write_digits(n, to, Figures::MOST)
}

// How many figures a number has. The shortest come first, since most numbers told are short: by the logarithm they took twice as long.
pub fn figures_len(n: u64) -> usize
    ensures { result ≡ length (figures n) }
{
    let others = match n {
        0..=9 => 0,
        10..=99 => 1,
        _ => n.ilog10() as usize,
    };
    others + 1
}

// The number that figures write, if they are figures of a number below 2^64.
#[tactic(auto, unfolding(crate::specs::Figures::number_in, crate::specs::Figures::figures_on))]
pub fn read_figures(figures: &[u8]) -> Option<u64>
    ensures { result ≡ number_in figures.now }
{
    if figures.is_empty() {
        return None;
    }
    let mut n = 0;
    for figure in figures {
        n = figure_on(n, *figure)?;
    }
    Some(n)
}

// One figure more.
#[tactic(auto, unfolding(crate::specs::Figures::figures_on))]
fn figure_on(n: u64, figure: u8) -> Option<u64>
    ensures { result ≡ figures_on n (figure ∷ []) }
{
    let digit = char::from(figure).to_digit(10)?;
    n.checked_mul(10)?.checked_add(digit.into())
}
