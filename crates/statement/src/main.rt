// Prints members' statements: reads rate sheets, members, bills, payments and late charges, one a line, and prints what
// each comes to and the member's balance after it.
#![tactic(auto)]

mod desk;
mod done;
mod printing;
mod request;

use billing::{Account, Blocks, Keeping, RateSheet};
use desk::Desk;
use request::read_request;
use std::io;
use std::io::{BufRead, BufReader};

// how many sheets and accounts there is memory for, which is lent: a keeping asks for none
const MOST_SHEETS: usize = 16;

const MOST_ACCOUNTS: usize = 64;

fn main(rt: HostRuntime) -> io::Result<()> {
    let Ok(blank) = RateSheet::new(0, 0, Blocks::One { rate: 0 }) else {
        return Ok(());
    };
    let mut sheet_memory = [blank; MOST_SHEETS];
    let mut account_memory = [Account::new(0); MOST_ACCOUNTS];
    let mut desk = Desk {
        sheets: Keeping::new(&mut sheet_memory),
        accounts: Keeping::new(&mut account_memory),
    };
    for line in BufReader::new(rt.alloc(), rt.stdin())?.lines(rt.alloc()) {
        let line = line?;
        let text = line.as_str();
        println!(rt; "{text}")?;
        match read_request(text) {
            Ok(request) => desk.answer(&rt, request)?,
            Err(fault) => rt.println(fault)?,
        }
    }
    Ok(())
}
