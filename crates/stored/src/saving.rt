// Saving a form as bytes.
ghost use Rattle.std.specs.Prelude.{◌≡◌, ℕ, ◌^◌, ◌<◌, ◌≤◌, length};
ghost use Rattle.forms.specs.declared.form.Form.{Form as AnyForm};
ghost use Rattle.forms.specs.Parts.{terms_of};
ghost use Rattle.stored.specs.Packing.{field_bit};
ghost use Rattle.stored.specs.Layout.{LoadsBack};
ghost use Rattle.stored.specs.Outcomes.{bytes_of, Saved, SavedBack, ToldByBytes};

use crate::bits::{Bits, spelled};
use crate::faults::SaveFault;
use crate::layout::{COUNT_BITS, HEAD_BITS, TERM_BITS, VERSION, VERSION_BITS, bytes_for};
use forms::Form;

/// Writes a form's bytes to the front of a buffer and answers how many they are; bytes past them stay.
/// Declined with `BufferTooShort`, and nothing changed, where the buffer is shorter.
pub fn save(form: &Form, out: &mut [u8]) -> Result<usize, SaveFault>
    ensures exact { Saved result (terms_of form.now) out.old out.new }
    ensures back { SavedBack result (terms_of form.now) out.new }
    ensures widths { (w v : ℕ) → v < 2 ^ 4 → LoadsBack w v }
    ensures told { (g : AnyForm) → ToldByBytes (terms_of form.now) (terms_of g) }
{
    let size = stored_len(form);
    if out.len() < size {
        return Err(SaveFault::BufferTooShort);
    }
    let front = &mut out[..size];
    for (index, byte) in front.iter_mut().enumerate() {
        *byte = spelled(form, 8 * index, 8) as u8;
    }
    Ok(size)
}

// How many bytes a form takes.
fn stored_len(form: &Form) -> usize
    ensures value { result ≡ length (bytes_of (terms_of form.now)) }
    ensures small { result < 2 ^ 16 }
{
    bytes_for(form.len())
}

// The bits of a stored form, and behind them zeros.
impl Bits for &Form {
    ghost use Rattle.forms.specs.Parts.{terms_of};
    ghost use Rattle.stored.specs.Layout.{stored_bit, count_bits, version};
    ghost use Rattle.std.proofs.Common.{arith};
    ghost use Rattle.std.proofs.lemmas.Bool.Decides.{nat_tests};

    ghost bit_of = { λ form. stored_bit count_bits version (terms_of form.now) };

    ghost zero_or_one = { λ form i. Prim.grind (arith, nat_tests) };

    fn bit(self, index: usize) -> u64 {
        if index < VERSION_BITS {
            return field_bit(VERSION, VERSION_BITS, index);
        }
        if index < HEAD_BITS {
            return field_bit(self.len() as u64 - 1, COUNT_BITS, index - VERSION_BITS);
        }
        let place = index - HEAD_BITS;
        self.term(place / TERM_BITS).map_or(
            0,
            |term| field_bit(term.number(), TERM_BITS, place % TERM_BITS),
        )
    }
}

// Bit k, counted from the most significant, of a number in a field.
fn field_bit(number: u64, width: usize, k: usize) -> u64
    requires within { k < width }
    requires width { width ≤ 64 }
    ensures { result ≡ field_bit width number k }
{
    number >> (width - 1 - k) & 1
}
