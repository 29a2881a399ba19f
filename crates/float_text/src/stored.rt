//! The text of a float as a binary log stores it.
ghost use Rattle.std.specs.Prelude.{◌*◌, ◌<◌, IfOk, IsAscii, IfSome};
ghost use Rattle.std.specs.Float.Ieee.{top};
ghost use Rattle.json.specs.Print.{IsNumber};
ghost use Rattle.float_text.specs.Stored.{AppendsNumber, text_of_bits, stored_text};

use crate::number::push_number;
use byteorder::{ByteOrder, LittleEndian};
use ryu::Float;
use std::alloc::{AllocError, Global};

/// Appends the text of a FLOAT, which has 4 bytes, or of a DOUBLE, which has 8, the lowest first, and answers true. What is no finite
/// number, NaN and the infinities, has no text, nor have bytes of another length: then it appends nothing, and answers false.
pub fn push_stored(out: &mut Vec<u8, Global>, bytes: &[u8]) -> Result<bool, AllocError>
    ensures text { IfOk result (AppendsNumber out.old.items out.new.items (stored_text bytes.now)) }
    ensures json { IfOk result (λ _. IfSome (stored_text bytes.now) IsNumber) }
    ensures ascii { IfOk result (λ _. IsAscii out.old.items → IsAscii out.new.items) }
{
    if bytes.len() == 4 {
        return push_bits::<f32>(out, LittleEndian::read_u32(bytes) as u64);
    }
    if bytes.len() == 8 {
        return push_bits::<f64>(out, LittleEndian::read_u64(bytes));
    }
    Ok(false)
}

/// The same of a float's bits.
fn push_bits<F: Float>(out: &mut Vec<u8, Global>, bits: u64) -> Result<bool, AllocError>
    requires { bits < 2 * top F.format }
    ensures text { IfOk result (AppendsNumber out.old.items out.new.items (text_of_bits F.format bits)) }
    ensures json { IfOk result (λ _. IfSome (text_of_bits F.format bits) IsNumber) }
    ensures ascii { IfOk result (λ _. IsAscii out.old.items → IsAscii out.new.items) }
{
    if bits % F::SIGN_BIT >= F::INFINITY_BITS {
        return Ok(false);
    }
    push_number::<F>(out, bits)?;
    Ok(true)
}
