// Reading a file whole, into a buffer that is sized once.
use anyhow::anyhow;
use std::env::Args;
use std::fs::File;
use std::io;
use std::io::Read;

// Work on a file of this length or more is announced.
const LONG: u64 = 64 << 20;

// Says on the error stream what is being done to a long file.
pub(crate) fn announce(rt: &HostRuntime, doing: &str, path: &str, length: u64) -> io::Result<()> {
    if length < LONG {
        return Ok(());
    }
    eprintln!(rt; "polwenog: {doing} {path}, {} MB", length >> 20)
}

// The bytes of a file; what it has past the length that it gave, as a pipe does, is read too.
pub(crate) fn read_whole(rt: &HostRuntime, path: &str) -> io::Result<Vec<u8>> {
    let mut file = File::open(rt, path)?;
    let length = file.metadata()?.len();
    announce(rt, "reading", path, length)?;
    // A byte of room past the length: the read that meets the end is made there, and the buffer need not grow for it.
    let room = (length as usize).saturating_add(1);
    let mut bytes = Vec::with_capacity(rt.alloc(), room)?;
    file.read_to_end(&mut bytes)?;
    Ok(bytes)
}

// Hands on the path and the bytes of each file named; the first that cannot be read ends it.
pub(crate) fn each_file<F: FnMut(&str, Vec<u8>) -> anyhow::Result<()>>(
    rt: &HostRuntime,
    command: &str,
    paths: Args,
    mut report: F,
) -> anyhow::Result<()>
    requires { F.IsAlwaysCallable report }
{
    let mut paths = paths.peekable();
    if paths.peek().is_none() {
        return Err(anyhow!("{command}: name at least one file"));
    }
    for path in paths {
        let read = read_whole(rt, path.as_str());
        let bytes = or_named(rt, path.as_str(), read, "not every file could be read")?;
        report(path.as_str(), bytes)?;
    }
    Ok(())
}

// What a step on a file gave; a failure is said on the error stream, and ends in `ending`.
pub(crate) fn or_named<T>(
    rt: &HostRuntime,
    path: &str,
    done: io::Result<T>,
    ending: &str,
) -> anyhow::Result<T> {
    match done {
        Ok(value) => Ok(value),
        Err(e) => {
            eprintln!(rt; "polwenog: {path}: {e}")?;
            Err(anyhow!(ending))
        }
    }
}
