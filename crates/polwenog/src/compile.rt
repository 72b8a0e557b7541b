// The form of each expression, or why it is refused.
use reports::{Report, report_lines};
use std::env::Args;

// Reports on each text named or, where none is, on each line of standard input.
pub(crate) fn compile(rt: &HostRuntime, texts: Args) -> anyhow::Result<()> {
    let mut texts = texts.peekable();
    if texts.peek().is_none() {
        report_lines(rt)?;
    }
    for text in texts {
        println!(rt; "{}", Report(expressions::compile(text.as_bytes())))?;
    }
    Ok(())
}
