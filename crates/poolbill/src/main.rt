// Prints the listing of the month file on standard input.
#![tactic(auto)]

use listing::BLOCK;
use month_format::MOST_BYTES;
use month_listing::list_month;
use std::io;
use std::io::Read;

// One byte more than the longest file shows that a file is too long.
const MOST_READ: u64 = MOST_BYTES as u64 + 1;

fn main(rt: HostRuntime) -> io::Result<()> {
    let mut file = Vec::new(rt.alloc());
    rt.stdin().take(MOST_READ).read_to_end(&mut file)?;
    let mut block = [0; BLOCK];
    let end = list_month(&file, &mut block);
    rt.write_all(&block[..end])
}
