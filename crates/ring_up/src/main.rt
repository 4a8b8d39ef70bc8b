// Rings up receipts from the lines of a task, prints each step, and writes their rolls.
#![tactic(auto)]

use model::action::Action;
use model::fault::Fault;
use report::{OrDash, print_refusal};
use roll::Roll;
use roll::write::write_roll;
use script::{Command, read_command};
use std::io;
use store::{Store, next_place, same_receipt};
use till::Till;

// Room for the roll of a full receipt.
const ROLL_SPACE: usize = 520;

// The receipt that is rung up, and memory for its roll.
#[derive(Drop)]
struct Desk {
    till: Till,
    memory: [u8; ROLL_SPACE],
}

impl Desk {
    fn new() -> Desk {
        Desk {
            till: Till::new(),
            memory: [0; ROLL_SPACE],
        }
    }

    fn open(&mut self, rt: &impl Print, label: u16) -> io::Result<()> {
        let level = self.till.depth();
        match self.till.open(label) {
            Ok(rank) => println!(rt; "opened label {label} at rank {rank}, level {level}"),
            Err(fault) => print_refusal(rt, fault.refusal()),
        }
    }

    fn close(&mut self, rt: &impl Print) -> io::Result<()> {
        let innermost = next_place(&self.till).parent;
        match self.till.close() {
            Ok(()) => println!(rt;
                "closed rank {}, depth {}",
                OrDash(innermost),
                self.till.depth()
            ),
            Err(fault) => print_refusal(rt, fault.refusal()),
        }
    }

    // Writes the roll into so many bytes of the memory, or into all of it, and reads it back.
    fn write(&mut self, rt: &impl Print, space: Option<u16>) -> io::Result<()> {
        let room = space.map_or(ROLL_SPACE, |n| usize::from(n).min(ROLL_SPACE));
        let memory = &mut self.memory[..];
        match write_roll(&self.till, &mut memory[..room]) {
            Ok(length) => {
                let bytes = &memory[..length];
                print_bytes(rt, bytes)?;
                read_back(rt, &self.till, bytes)
            }
            Err(fault) => print_refusal(rt, fault.refusal()),
        }
    }

    fn obey(&mut self, rt: &impl Print, command: Command) -> io::Result<()> {
        match command {
            Command::Begin => {
                self.till = Till::new();
                println!(rt; "a new receipt")
            }
            Command::Act(Action::Open(label)) => self.open(rt, label),
            Command::Act(Action::Close) => self.close(rt),
            Command::Roll(space) => self.write(rt, space),
        }
    }
}

fn print_bytes(rt: &impl Print, bytes: &[u8]) -> io::Result<()> {
    print!(rt; "roll of {} bytes:", bytes.len())?;
    for byte in bytes {
        print!(rt; " {byte:02X}")?;
    }
    println!(rt; "")
}

// Reads a roll that was just written, and says whether it tells the till's receipt.
fn read_back(rt: &impl Print, till: &Till, bytes: &[u8]) -> io::Result<()> {
    match Roll::try_from(bytes) {
        Ok(roll) if same_receipt(till, &roll) => println!(rt; "read back: the same receipt"),
        Ok(_) => println!(rt; "read back: another receipt"),
        Err(fault) => print_refusal(rt, fault.refusal()),
    }
}

fn main(rt: HostRuntime) -> io::Result<()> {
    let mut desk = Desk::new();
    for line in rt.lines(rt.alloc()) {
        let text = line?;
        match read_command(text.as_bytes()) {
            Some(command) => desk.obey(&rt, command)?,
            None => println!(rt; "no such command: {text}")?,
        }
    }
    Ok(())
}
