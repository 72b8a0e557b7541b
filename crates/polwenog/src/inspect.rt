// What each file holds: its kind and sides, and its lowest and highest element, or why it is refused.
use crate::file::{announce, each_file};
use crate::refused::Refused;
use crate::tally::Tally;
use extremes::{Extremes, Found, find_extremes};
use images::{Image, Log};
use sources::Source;
use std::env::Args;
use std::{fmt, io};

// Reports on each file named; the first that cannot be read ends it.
pub(crate) fn inspect(rt: &HostRuntime, paths: Args) -> anyhow::Result<()> {
    let mut tally = Tally::default();
    each_file(rt, "inspect", paths, |path, bytes| {
        report(rt, path, bytes, &mut tally)
    })?;
    println!(rt; "{tally}")?;
    Ok(())
}

// A file that begins with `P5` or ends in `.pgm` is an image, any other a log.
fn is_image(path: &str, bytes: &[u8]) -> bool {
    path.ends_with(".pgm") || bytes.starts_with(b"P5")
}

fn report(rt: &HostRuntime, path: &str, bytes: Vec<u8>, tally: &mut Tally) -> anyhow::Result<()> {
    announce(rt, "checking", path, bytes.len() as u64)?;
    // Not one generic function: the two refusals have no trait in common that says their numbers.
    if is_image(path, &bytes) {
        let image = Image::parse(bytes).map_err(|declined| Refused {
            number: declined.refusal.number(),
            reason: declined.refusal,
        });
        describe(rt, path, image, tally)
    } else {
        let log = Log::parse(bytes).map_err(|declined| Refused {
            number: declined.refusal.number(),
            reason: declined.refusal,
        });
        describe(rt, path, log, tally)
    }
}

// A source of which the line of its file says what it is.
trait Described: Source {
    fn headline(&self, rt: &HostRuntime, path: &str) -> io::Result<()>;
}

impl Described for Image {
    fn headline(&self, rt: &HostRuntime, path: &str) -> io::Result<()> {
        let header = self.header();
        println!(rt;
            "{path}: image {} by {}, maximum {}",
            header.height, header.width, header.maximum
        )
    }
}

impl Described for Log {
    fn headline(&self, rt: &HostRuntime, path: &str) -> io::Result<()> {
        println!(rt; "{path}: log of {} events", self.height())
    }
}

// What a file holds, or why it is refused, for every kind.
fn describe<S: Described + Drop, R: fmt::Display + Drop>(
    rt: &HostRuntime,
    path: &str,
    parsed: Result<S, Refused<R>>,
    tally: &mut Tally,
) -> anyhow::Result<()>
where
    S::Element: fmt::Display,
{
    match parsed {
        Ok(source) => {
            source.headline(rt, path)?;
            details(rt, &source, tally)
        }
        Err(refused) => {
            println!(rt; "{path}: {refused}")?;
            tally.refuse();
            Ok(())
        }
    }
}

// The lowest and the highest element of a source, for every kind.
fn details<S: Source>(rt: &HostRuntime, source: &S, tally: &mut Tally) -> anyhow::Result<()>
where
    S::Element: fmt::Display,
{
    let Ok(corner) = source.read(0, 0) else {
        return Ok(());
    };
    let mut scratch = vec![in rt.alloc(); corner; source.width() as usize]?;
    let Some(Extremes { lowest, highest }) = find_extremes(source, &mut scratch) else {
        return Ok(());
    };
    show(rt, "lowest", lowest)?;
    show(rt, "highest", highest)?;
    tally.read(u64::from(source.height()) * u64::from(source.width()));
    Ok(())
}

fn show<E: Copy + fmt::Display>(rt: &HostRuntime, which: &str, found: Found<E>) -> io::Result<()> {
    println!(rt;
        "  {which} {} at row {}, column {}",
        found.element, found.row, found.column
    )
}
