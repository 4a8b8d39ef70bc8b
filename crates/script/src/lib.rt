// The lines of a task: what the walk-through program is asked to do.
#![tactic(auto)]

ghost use Rattle.std.specs.Prelude.{◌≡◌};
ghost use Rattle.script.specs.Commands.{command_of, number_in, opening_in, rolling_in};

use model::action::Action;

// The most digits of a number in a line.
const MOST_DIGITS: usize = 4;

#[derive(Clone, Copy, PartialEq, Eq, Debug)]
pub enum Command {
    // Begins an empty receipt.
    Begin,
    // An opening or a closing.
    Act(Action),
    // Writes the roll, into so many bytes of memory if a number is given.
    Roll(Option<u16>),
}

// The number that one to four decimal digits write.
pub fn read_number(digits: &[u8]) -> Option<u16>
    ensures { result ≡ number_in digits.now }
{
    if digits.is_empty() || digits.len() > MOST_DIGITS {
        return None;
    }
    let mut n = 0;
    for digit in digits {
        if !digit.is_ascii_digit() {
            return None;
        }
        n = 10 * n + u16::from(*digit - b'0');
    }
    Some(n)
}

fn opening(digits: &[u8]) -> Option<Command>
    ensures { result ≡ opening_in digits.now }
{
    read_number(digits).map(|label| Command::Act(Action::Open(label)))
}

fn rolling(digits: &[u8]) -> Option<Command>
    ensures { result ≡ rolling_in digits.now }
{
    if digits.is_empty() {
        return Some(Command::Roll(None));
    }
    read_number(digits).map(|space| Command::Roll(Some(space)))
}

// "+" and a label opens, "-" closes, "=" writes the roll, "=" and a number writes it into that many bytes, "*" begins anew.
pub fn read_command(line: &[u8]) -> Option<Command>
    ensures { result ≡ command_of line.now }
{
    match line {
        [b'+', digits @ ..] => opening(digits),
        [b'=', digits @ ..] => rolling(digits),
        [b'-'] => Some(Command::Act(Action::Close)),
        [b'*'] => Some(Command::Begin),
        _ => None,
    }
}
