// Where two lists first differ: how many items are the same from the start on.
ghost use Rattle.std.specs.Prelude.{◌≤◌, ◌≡◌, length};
ghost use Rattle.std.specs.List.{common_prefix_len};

// How many items from the start on are alike: the place of the first difference, or the length of the shorter.
pub fn alike<T: PartialEq>(a: &[T], b: &[T]) -> usize
    ensures value { result ≡ common_prefix_len T.eq a.now b.now }
    ensures upper_bound { result ≤ length a.now }
    ensures upper_bound_2 { result ≤ length b.now }
{
    for (i, x) in a.iter().enumerate() {
        if b.get(i) != Some(x) {
            return i;
        }
    }
    a.len()
}
