// A fixed table whose first items are given up.
ghost use Rattle.std.specs.Prelude.{◌≡◌, ◌≤◌, ◌++◌, length, drop, replicate};

// These items go to the front: of any type, where the writer of frames puts bytes at a place.
fn put_front<T: Copy>(all: &mut [T], items: &[T])
    requires { length items.now ≤ length all.old }
    ensures { all.new ≡ items.now ++ drop (length items.now) all.old }
{
    all[..items.len()].copy_from_slice(items);
}

// The items from a place on, and blanks after them.
pub(crate) fn shifted<T: Copy, const N: usize>(items: &[T; N], by: usize, blank: T) -> [T; N]
    requires { by ≤ N }
    ensures { result ≡ drop by items.now ++ replicate by blank }
{
    let mut all = [blank; N];
    let items = &items[..];
    put_front(&mut all, &items[by..]);
    all
}
