// Finding the next token of a text.
ghost use Rattle.std.specs.Prelude.{◌≡◌, ℕ, ◌<◌, ◌≤◌, length, if◌then◌else◌, Some, None, IfSome, slice_index};
ghost use Rattle.letters.specs.Scanning.{value_of, is_numeral, cut_of_number, cut_of, ReadsNumber, Cuts, Next, OnlySpelling};

use crate::faults::LettersFault;
use crate::tokens::{Found, Sign, Token};

// What digits say: one to three, a first 0 only alone, and after a minus no 0 alone.
// The patterns say the lengths and where a 0 may lead; a fold over the digits would need both beside it.
fn value_of(negative: bool, digits: &[u8]) -> Option<u16>
    requires { (i : ℕ) → i < length digits.now → (48 ≤ slice_index digits.now i) × (slice_index digits.now i ≤ 57) }
    ensures is { result ≡ (if is_numeral negative digits.now then Some (value_of 0 digits.now) else None) }
    ensures small { IfSome result (λ n. n < 1000) }
{
    match digits {
        [d] if !(negative && *d == b'0') => Some((*d - b'0') as u16),
        [d, e] if *d != b'0' => Some((*d - b'0') as u16 * 10 + (*e - b'0') as u16),
        [d, e, f] if *d != b'0' => Some(
            (*d - b'0') as u16 * 100 + (*e - b'0') as u16 * 10 + (*f - b'0') as u16,
        ),
        _ => None,
    }
}

// The number whose digits begin some bytes, after a minus or not, and how many digits it has.
fn number_at(negative: bool, bytes: &[u8]) -> Option<(i16, usize)>
    ensures { ReadsNumber result (cut_of_number negative 0 bytes.now) }
{
    let size = bytes.iter().take_while(|b| b.is_ascii_digit()).count();
    let value = value_of(negative, &bytes[..size])? as i16;
    Some((if negative { -value } else { value }, size))
}

// The token with which some bytes begin, and how many of them it takes, or `None` where there is no token.
fn cut<'a>(bytes: &'a [u8]) -> Option<(Token<'a>, usize)>
    ensures { Cuts result (cut_of bytes.now) }
{
    let [first, rest @ ..] = bytes else {
        return Some((Token::End, 0));
    };
    if first.is_ascii_lowercase() {
        let size = bytes.iter().take_while(|b| b.is_ascii_lowercase()).count();
        Some((Token::Word(&bytes[..size]), size))
    } else if first.is_ascii_digit() {
        let (number, size) = number_at(false, bytes)?;
        Some((Token::Number(number), size))
    } else if *first == b'-' {
        let (number, size) = number_at(true, rest)?;
        Some((Token::Number(number), 1 + size))
    } else {
        let sign = Sign::of(*first)?;
        Some((Token::Mark(sign), 1))
    }
}

/// The token that stands next in a text from a place on, behind any blanks; at the end, `End`.
/// Declined where the bytes there are no token.
#[tactic(auto, using(crate::proofs::Spelling::only_spelling))]
pub fn next_token<'a>(text: &'a [u8], at: usize) -> Result<Found<'a>, LettersFault>
    ensures next { Next result text.now at }
    ensures spelling { OnlySpelling text.now }
{
    let rest = &text[at.min(text.len())..];
    let blanks = rest.iter().take_while(|b| **b == b' ').count();
    let place = at + blanks;
    let (token, size) = cut(&rest[blanks..]).ok_or(LettersFault { place })?;
    Ok(Found {
        token,
        place,
        end: place + size,
    })
}
