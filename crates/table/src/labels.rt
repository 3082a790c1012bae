// The labels of a source, in the order of their first appearance. A name is a stretch of the source, so none is copied.
ghost use Rattle.std.specs.Prelude.{◌≡◌};
ghost use Rattle.table.specs.Table.{no_labels};

// Entries from the count on are 0.
#[derive(Clone, Copy)]
pub struct Labels {
    pub count: usize,
    pub places: [u16; 64],
    pub lengths: [u16; 64],
    pub addresses: [u8; 64],
}

impl Labels {
    pub fn empty() -> Labels
        ensures { result ≡ no_labels }
    {
        Labels {
            count: 0,
            places: [0; 64],
            lengths: [0; 64],
            addresses: [0; 64],
        }
    }
}
