// Reads rolls from standard input, one a line in hexadecimal, and tells the receipt of each or why it is refused.
#![tactic(auto)]

use model::fault::Fault;
use report::{OrDash, print_refusal};
use roll::Roll;
use std::alloc::{AllocError, Global};
use std::io;
use store::Store;

// The bytes that a line writes, or none where it writes something else.
fn read_bytes(heap: Global, line: &str) -> Result<Option<Vec<u8>>, AllocError> {
    let mut bytes = Vec::new(heap);
    for word in line.split_whitespace() {
        match u8::from_str_radix(word, 16) {
            Ok(byte) => bytes.push(byte)?,
            Err(_) => return Ok(None),
        }
    }
    Ok(Some(bytes))
}

fn print_element(rt: &impl Print, roll: &Roll, rank: usize) -> io::Result<()> {
    println!(rt;
        "{rank}: label {}, level {}, parent {}, first child {}, next {}, previous {}",
        OrDash(roll.label(rank)),
        OrDash(roll.level(rank)),
        OrDash(roll.parent(rank)),
        OrDash(roll.first_child(rank)),
        OrDash(roll.next_sibling(rank)),
        OrDash(roll.previous_sibling(rank))
    )
}

fn print_receipt(rt: &impl Print, roll: &Roll) -> io::Result<()> {
    println!(rt; "{} elements, depth {}", roll.count(), roll.depth())?;
    for rank in 0..roll.count() {
        print_element(rt, roll, rank)?;
    }
    Ok(())
}

fn tell(rt: &impl Print, bytes: &[u8]) -> io::Result<()> {
    match Roll::try_from(bytes) {
        Ok(roll) => print_receipt(rt, &roll),
        Err(fault) => print_refusal(rt, fault.refusal()),
    }
}

fn main(rt: HostRuntime) -> io::Result<()> {
    for line in rt.lines(rt.alloc()) {
        let text = line?;
        match read_bytes(rt.alloc(), text.as_str())? {
            Some(bytes) => tell(&rt, bytes.as_slice())?,
            None => println!(rt; "no bytes: {text}")?,
        }
    }
    Ok(())
}
