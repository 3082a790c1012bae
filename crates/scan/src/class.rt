// Classes of bytes that a scan looks for.
ghost use Rattle.std.specs.Prelude.{◌≡◌};
ghost use Rattle.scan.specs.Class.{blank, passes};

#[derive(Clone, Copy)]
pub enum Class {
    Is(u8),
    IsNot(u8),
    Blank,
    Solid,
    High,
}

impl Class {
    // Whether a byte is of this class.
    #[tactic(auto, unfolding(crate::specs::Class::passes))]
    pub fn passes(self, byte: u8) -> bool
        ensures { result ≡ passes self byte }
    {
        match self {
            Class::Is(b) => byte == b,
            Class::IsNot(b) => byte != b,
            Class::Blank => blank(byte),
            Class::Solid => !blank(byte),
            Class::High => byte > 0x7F,
        }
    }
}

// Space, and tab to carriage return.
fn blank(byte: u8) -> bool
    ensures { result ≡ blank byte }
{
    byte == b' ' || byte >= 0x09 && byte <= 0x0D
}
