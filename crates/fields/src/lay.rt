// Bytes laid over a memory or a buffer.
ghost use Rattle.std.specs.Prelude.{◌≡◌};
ghost use Rattle.fields.specs.Lay.{changed as changes, laid};

// The memory after the changes, an address and a byte each. A lone last byte changes nothing.
#[tactic(auto, using(crate::proofs::LayLaws::change_laws))]
pub fn changed(mut memory: [u8; 256], pairs: &[u8]) -> [u8; 256]
    ensures { result ≡ changes memory pairs.now }
{
    let mut rest = pairs;
    while let [address, byte, behind @ ..] = rest {
        memory[usize::from(*address)] = *byte;
        rest = behind;
    }
    memory
}

// Lays the bytes over the buffer from a place on, as far as the buffer goes.
#[tactic(auto, using(crate::proofs::LaidLaws::laid_copied))]
pub fn lay(buffer: &mut [u8], place: usize, bytes: &[u8])
    ensures { buffer.new ≡ laid buffer.old place bytes.now }
{
    let from = place.min(buffer.len());
    let count = bytes.len().min(buffer.len() - from);
    buffer[from..from + count].copy_from_slice(&bytes[..count]);
}
