// For the offer writer: reads the names sheet, then query texts from standard input, one a line, and says of each what it
// is read as, part by part, or what is wrong with it and where.
#![tactic(auto)]

use model::fault::{Described, Fault, Refusal};
use model::limits::MOST_PARTS;
use names::NamesFault;
use names::lookup::{Naming, Unchecked};
use query::{QueryFault, read};
use std::{fmt, fs, io};
use table::part::{Part, Tag};

// What is wrong, with the limits in numbers.
fn query_sentence(fault: QueryFault) -> &'static str {
    match fault {
        QueryFault::BadSize => "The text is empty or has more than 512 bytes.",
        QueryFault::TooDeep(_) => "This is the ninth bracket that is open.",
        QueryFault::TooLong => "There are more than 16 steps, `and`, `or` and `not`.",
        QueryFault::UnknownName(_) => "This name is not in the sheet.",
        QueryFault::ShortTable => "The table has too few places for this query.",
        _ => fault.sentence(),
    }
}

fn names_sentence(fault: NamesFault) -> &'static str {
    match fault {
        NamesFault::TooMuch => "The sheet has more than 6250 bytes or 250 lines.",
        _ => fault.sentence(),
    }
}

fn print_fault(rt: &impl Print, refusal: Refusal, sentence: &str) -> io::Result<()> {
    let Refusal {
        number,
        layer,
        place,
    } = refusal;
    println!(rt; "refused by {number}, {layer}, at {place}: {sentence}")
}

// A part in words, which name other parts by their places.
#[derive(Drop)]
struct InWords(Part);

impl fmt::Display for InWords {
    fn fmt<W: fmt::Write>(&self, f: &mut fmt::Formatter<W>) -> fmt::Result {
        let Part { tag, first, second } = self.0;
        match tag {
            Tag::First => write!(f, "the first element"),
            Tag::Any => write!(f, "any element"),
            Tag::Named => write!(f, "label {first}"),
            Tag::Filtered => write!(f, "{first} with filter {second}"),
            Tag::Then => write!(f, "{first}, then {second}"),
            Tag::Along(axis) => write!(f, "{axis} to {first}"),
            Tag::And => write!(f, "{first} and {second}"),
            Tag::Or => write!(f, "{first} or {second}"),
            Tag::Not => write!(f, "not {first}"),
            Tag::Step(axis) => write!(f, "from {second}, {axis} to {first}"),
        }
    }
}

// A caret under the byte at the place.
fn print_caret(rt: &impl Print, place: usize) -> io::Result<()> {
    for _ in 0..place {
        print!(rt; " ")?;
    }
    println!(rt; "^")
}

fn show(rt: &impl Print, text: &[u8], names: &impl Naming) -> io::Result<()> {
    let mut table = [Part::UNUSED; MOST_PARTS];
    match read(text, names, &mut table) {
        Ok(size) => {
            println!(rt; "length {}, {} places", size.steps, size.places)?;
            for (place, part) in table.iter().take(size.places).enumerate() {
                println!(rt; "  {place}: {}", InWords(*part))?;
            }
            Ok(())
        }
        Err(fault) => {
            let refusal = fault.refusal();
            print_caret(rt, refusal.place)?;
            print_fault(rt, refusal, query_sentence(fault))
        }
    }
}

fn main(rt: HostRuntime) -> io::Result<()> {
    let sheet = fs::read(&rt, "names.txt")?;
    match names::check(&sheet) {
        Ok(count) => println!(rt; "{count} names")?,
        Err(fault) => return print_fault(&rt, fault.refusal(), names_sentence(fault)),
    }
    for line in rt.lines(rt.alloc()) {
        let line = line?;
        println!(rt; "{line}")?;
        show(&rt, line.as_bytes(), &Unchecked(&sheet))?;
    }
    Ok(())
}
