// The bytes that digits spell.
ghost use Rattle.std.specs.Prelude.{◌≡◌, ◌≤◌, take};

// So many stand at the start: at most 260, for a record has 255 of data and five others.
#[derive(Clone, Copy)]
pub struct Spelled {
    pub bytes: [u8; 260],
    pub count: usize,
    pub ghost count_in_bounds: { count ≤ 260 },
}

impl Spelled {
    pub fn as_bytes(&self) -> &[u8]
        ensures { result.now ≡ take self.now.count self.now.bytes }
    {
        &self.bytes[..self.count]
    }
}
