// A locale: the rules by which it puts numbers into plural classes, and numbers in figures.
#![tactic(auto)]

mod class;
mod figures;
mod locale;
mod promises;
mod rule;
mod rules;

pub use figures::{Figures, figures_len, read_figures, write_figures};
pub use locale::Locale;
pub use promises::promise;
