// A copy of elements between two slices.
ghost use Rattle.std.specs.Prelude.{◌≡◌, length};

// The elements of a slice over as many of another, one by one. The library's `copy_from_slice` allows for
// slices that overlap, and a static library with it needs `memmove` from outside.
pub fn copy_all<T: Copy>(to: &mut [T], from: &[T])
    requires { length to.old ≡ length from.now }
    ensures len { length to.new ≡ length to.old }
    ensures after { to.new ≡ from.now }
{
    for (i, element) in from.iter().enumerate() {
        to[i] = *element;
    }
}
