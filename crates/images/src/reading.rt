// The reading of an image: its header, its length, its samples.
ghost use Rattle.std.specs.Prelude.{◌≡◌, ◌+◌, ◌*◌, ◌≤◌, ℕ, Bool, length, IfSome, IfOk};
ghost use Rattle.std.specs.List.{prefix_len};
ghost use Rattle.images.specs.Header.{white, digit, decimal as decimal_of, most_digits};
ghost use Rattle.images.specs.Fits.{Fits};
ghost use Rattle.images.specs.Reading.{field_at, header_of, in_range, checked as checked_of, surveyed};

use crate::header::{Header, Layout};
use crate::raster::Raster;
use crate::refusal::ImageRefusal;
use sources::LONGEST;

// The most digits of a number in a header.
const MOST_DIGITS: usize = 5;

// The highest maximum that a header may give.
const HIGHEST_MAXIMUM: u32 = 65_535;

fn is_white(b: u8) -> bool
    ensures { result ≡ white b }
{
    matches!(b, b' ' | b'\t' | b'\r' | b'\n')
}

// How many bytes pass a test before the first that does not.
fn leading<F: Fn(u8) -> bool>(bytes: &[u8], passes: F) -> usize
    requires { F.IsAlwaysCallable passes }
    ensures count { (p : ℕ → Bool) → ((b : ℕ) (r : Bool) → F.post passes b r → r ≡ p b)
        → result ≡ prefix_len p bytes.now }
    ensures within { result ≤ length bytes.now }
{
    bytes.iter().take_while(|b| passes(**b)).count()
}

// The number that a few digits write.
fn decimal(digits: &[u8]) -> u32
    requires { length digits.now ≤ most_digits }
    ensures { result ≡ decimal_of digits.now }
{
    let mut sum = 0u32;
    for d in digits {
        sum = sum * 10 + u32::from(d.saturating_sub(b'0'));
    }
    sum
}

// White space and then a number of one to `MOST_DIGITS` digits: the number, and where it ends.
fn field(bytes: &[u8], at: usize) -> Option<(u32, usize)>
    requires { at ≤ length bytes.now }
    ensures within { IfSome result (λ p. p.1 ≤ length bytes.now) }
    ensures value { result ≡ field_at bytes.now at }
{
    let start = at + leading(&bytes[at..], is_white);
    let end = start + leading(&bytes[start..], |b| b.is_ascii_digit());
    if start == at || end == start || end - start > MOST_DIGITS {
        return None;
    }
    Some((decimal(&bytes[start..end]), end))
}

// The header, of bytes that begin with `P5`.
fn header(bytes: &[u8]) -> Option<Layout>
    requires { 2 ≤ length bytes.now }
    ensures within { IfSome result (λ l. l.start ≤ length bytes.now) }
    ensures value { result ≡ header_of bytes.now }
{
    let (width, at) = field(bytes, 2)?;
    let (height, at) = field(bytes, at)?;
    let (maximum, at) = field(bytes, at)?;
    let _ = bytes.get(at).filter(|b| is_white(**b))?;
    Some(Layout {
        header: Header {
            height,
            width,
            maximum,
        },
        start: at + 1,
    })
}

fn in_range(header: Header) -> bool
    ensures { result ≡ in_range header }
{
    (1..=LONGEST).contains(&header.height)
        && (1..=LONGEST).contains(&header.width)
        && (1..=HIGHEST_MAXIMUM).contains(&header.maximum)
}

// What follows the header is checked: the ranges, the length, the samples.
fn checked(bytes: &[u8], layout: Layout) -> Result<Layout, ImageRefusal>
    requires { layout.start ≤ length bytes.now }
    ensures fits { IfOk result (λ l. Fits l bytes.now) }
    ensures value { result ≡ checked_of bytes.now layout }
{
    let header = layout.header;
    if !in_range(header) {
        return Err(ImageRefusal::OutOfRange);
    }
    let bytes = &bytes[layout.start..];
    if bytes.len() != header.raster_length() {
        return Err(ImageRefusal::WrongLength);
    }
    let raster = Raster { header, bytes };
    if u32::from(raster.highest()) > header.maximum {
        return Err(ImageRefusal::AboveMaximum);
    }
    Ok(layout)
}

// Where the raster of an image starts and what its header says.
pub(crate) fn survey(bytes: &[u8]) -> Result<Layout, ImageRefusal>
    ensures fits { IfOk result (λ l. Fits l bytes.now) }
    ensures value { result ≡ surveyed bytes.now }
{
    let [b'P', b'5', ..] = bytes else {
        return Err(ImageRefusal::NotPgm);
    };
    let layout = header(bytes).ok_or(ImageRefusal::MalformedHeader)?;
    checked(bytes, layout)
}
