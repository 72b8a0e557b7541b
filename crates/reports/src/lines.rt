// Reports on many texts, one to a line.
use crate::reports::Report;
use expressions::compile;
use std::io;
use std::io::{BufRead, BufReader, BufWriter, Write};

/// Reports on each line of standard input; a line may hold any bytes but the one that ends it.
pub fn report_lines(rt: &HostRuntime) -> io::Result<()> {
    let mut input = BufReader::new(rt.alloc(), rt.stdin())?;
    let mut output = BufWriter::new(rt.alloc(), rt.stdout())?;
    let mut line = Vec::new(rt.alloc());
    // One buffer for all lines: `split`, which makes one for each, took a tenth longer on short lines.
    for _ in 0..u64::MAX {
        line.clear();
        if input.read_until(b'\n', &mut line)? == 0 {
            break;
        }
        writeln!(output, "{}", Report(compile(without_end(&line))))?;
    }
    output.flush()
}

// The line without the byte that ends it; the last line may lack it.
fn without_end(line: &[u8]) -> &[u8] {
    line.strip_suffix(b"\n").unwrap_or(line)
}
