// An instruction, decoded and encoded.
ghost use Rattle.std.specs.Prelude.{◌≡◌};
ghost use Rattle.host_instruction.specs.Instruction.{coded, decode_from, encode_from, parted};

use host_instruction::decode::decode;
use host_instruction::encode::encode;

// The parts: opcode, form, first operand, second operand, length, and 1 where the bytes are the plain spelling.
#[unsafe(no_mangle)]
pub extern "C" fn nanocore_decode(opcode: u8, two: u8, three: u8, parts: &mut [usize; 6]) -> usize
    ensures { parted result parts.new ≡ decode_from opcode two three }
{
    decode(opcode, two, three, parts)
}

#[unsafe(no_mangle)]
pub extern "C" fn nanocore_encode(
    opcode: u8,
    form: u8,
    first: u8,
    second: u8,
    bytes: &mut [u8; 3],
    length: &mut usize,
    values: &mut [usize; 2],
) -> usize
    ensures { coded result values.new bytes.new length.new ≡ encode_from opcode form first second }
{
    encode(opcode, form, first, second, bytes, length, values)
}
