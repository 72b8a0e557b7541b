// The texts of a table, one to a line, compiled; what is said of each is compared with what an independent compiler says.
#![tactic(auto)]

use reports::report_lines;
use std::io;

fn main(rt: HostRuntime) -> io::Result<()> {
    report_lines(&rt)
}
