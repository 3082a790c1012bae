// What this build calls a record.
ghost use Rattle.std.specs.Prelude.{◌≡◌};
ghost use Rattle.record.specs.Record.{layout};

// The version of the record's layout: the first byte of every record.
pub fn version() -> usize
    ensures { result ≡ layout }
{
    1
}
