// The marks of an image: 0 where a byte is clear, and anything else where it is set.
ghost use Rattle.std.specs.Prelude.{◌≡◌};
ghost use Rattle.scan.specs.declared.class.Class.TheVariants.{IsNot};
ghost use Rattle.scan.specs.Scan.{count};

// How many bytes are set.
pub fn set_bytes(marks: &[u8]) -> usize
    ensures { result ≡ count (IsNot 0) marks.now }
{
    marks.iter().filter(|mark| **mark != 0).count()
}
