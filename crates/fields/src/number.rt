// What a case is made of: bytes, and the numbers of an answer.
ghost use Rattle.std.specs.Prelude.{ℕ, ◌≡◌, refl};

// An item that has a number. Where a list has ended, that of `nothing` stands.
pub trait Number: Copy + PartialEq {
    ghost value: { Self → ℕ };

    ghost nothing: { Self };

    fn value(self) -> usize
        ensures { result ≡ value self };

    ghost no_value: { value nothing ≡ 0 };
}

impl Number for u8 {
    ghost value = { λ byte. byte };

    ghost nothing = { 0 };

    fn value(self) -> usize {
        usize::from(self)
    }

    ghost no_value = { refl };
}

impl Number for usize {
    ghost value = { λ number. number };

    ghost nothing = { 0 };

    fn value(self) -> usize {
        self
    }

    ghost no_value = { refl };
}
