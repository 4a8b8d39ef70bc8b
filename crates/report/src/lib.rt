// How the programs tell of refusals.
#![tactic(auto)]

ghost use Rattle.std.specs.Prelude.{Some};
ghost use Rattle.report.specs.Told.{fault_text, text_or_dash};

use model::fault::{Described, Fault, Refusal};
use std::{fmt, io};

// Prints a refusal on a line of its own.
pub fn print_refusal(rt: &impl Print, refusal: Refusal) -> io::Result<()> {
    println!(rt; "refused: {refusal}")
}

// A fault on a line: number, layer and place of its refusal, and what it is.
#[derive(Clone, Copy)]
pub struct Report<F>(pub F);

impl<F: Fault + Described> fmt::Display for Report<F> {
    ghost output = { λ x. Some (fault_text (F.Fault.refusal x.0) (F.Described.says x.0)) };

    fn fmt<W: fmt::Write>(&self, f: &mut fmt::Formatter<W>) -> fmt::Result {
        let Refusal {
            number,
            layer,
            place,
        } = self.0.refusal();
        write!(
            f,
            "refused by {number}, {layer}, at {place}: {}",
            self.0.sentence()
        )
    }
}

// A value in its own words, or "-" where there is none.
#[derive(Clone, Copy)]
pub struct OrDash<T>(pub Option<T>);

impl<T: fmt::Display> fmt::Display for OrDash<T> {
    ghost output = { λ x. text_or_dash T.output x.0 };

    fn fmt<W: fmt::Write>(&self, f: &mut fmt::Formatter<W>) -> fmt::Result {
        match &self.0 {
            Some(value) => write!(f, "{value}"),
            None => f.write_str("-"),
        }
    }
}
