// Quotes charges: reads requests, one a line, and prints for each the account of its charge.
#![tactic(auto)]

mod account;
mod printing;
mod request;

use account::{Refused, quote_cash_out, quote_day};
use request::{Request, read_request};
use std::io::{BufRead, BufReader};
use std::{fmt, io};

// Prints an account, or why there is none.
fn print_account<T: fmt::Display + Drop>(
    rt: &HostRuntime,
    account: Result<T, Refused>,
) -> io::Result<()> {
    match account {
        Ok(account) => rt.print(account),
        Err(refused) => rt.println(refused),
    }
}

// Repeats the line, and prints the account that it asks for or what is wrong with it.
fn answer_line(rt: &HostRuntime, line: &str) -> io::Result<()> {
    println!(rt; "{line}")?;
    match read_request(line) {
        Ok(Request::CashOut(month)) => print_account(rt, quote_cash_out(month)),
        Ok(Request::Day(day)) => print_account(rt, quote_day(day)),
        Err(fault) => rt.println(fault),
    }
}

fn main(rt: HostRuntime) -> io::Result<()> {
    for line in BufReader::new(rt.alloc(), rt.stdin())?.lines(rt.alloc()) {
        let line = line?;
        answer_line(&rt, line.as_str())?;
    }
    Ok(())
}
