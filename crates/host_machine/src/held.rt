// The machine that lies in a record, and the next one in its place.
ghost use Rattle.std.specs.Prelude.{true, false, ◌≡◌, ◌∷◌, [], length, MatchOption};
ghost use Rattle.record.specs.Record.{is_record, machine_of, record_of};

use answer_number::Numbered;
use nanocore::machine::Machine;
use record::record::{is_record, read, write};

// None where the bytes are no machine of this build.
#[tactic(auto, using(record::proofs::Crossing::record_long))]
pub fn held(bytes: &[u8]) -> Option<Machine>
    ensures { MatchOption result (is_record bytes.now ≡ false) (λ m. (is_record bytes.now ≡ true) × (m ≡ machine_of bytes.now) × (length bytes.now ≡ 296)) }
{
    if is_record(bytes) {
        Some(read(bytes))
    } else {
        None
    }
}

// Puts the machine where one lay.
pub fn put(machine: Machine, bytes: &mut [u8])
    requires { length bytes.old ≡ 296 }
    ensures bytes_after { bytes.new ≡ record_of machine }
    ensures bytes_after_2 { is_record bytes.new ≡ true }
{
    write(machine, bytes);
}

// The same, and tells the answer's number and values.
pub fn tell(machine: Machine, answer: Numbered, bytes: &mut [u8], values: &mut [usize; 2]) -> usize
    requires { length bytes.old ≡ 296 }
    ensures number { result ≡ answer.number }
    ensures values_after { values.new ≡ answer.first ∷ answer.second ∷ [] }
    ensures bytes_after { bytes.new ≡ record_of machine }
    ensures bytes_after_2 { is_record bytes.new ≡ true }
{
    put(machine, bytes);
    *values = [answer.first, answer.second];
    answer.number
}
