// What the equality of messages, names, lists of names and bodies means in the model.
ghost use Rattle.std.specs.Prelude.{◌≡◌, Bool, true, false, ◌&&◌, List, map, drop};
ghost use Rattle.frames.specs.Types.{name_of, names_of, body_of};
ghost use Rattle.head.specs.Slots.{same_bytes, same_message, same_name, same_names, listed, twice};

use frames::types::{Body, Name, Names};

// The same source and number: the level is left out.
pub fn is_message(a: Name, b: Name) -> bool
    ensures { result ≡ same_message (name_of a) (name_of b) }
{
    a.source == b.source && a.number == b.number
}

// That == of names is what the model calls the same name.
pub fn is_name(a: Name, b: Name) -> bool
    ensures { result ≡ same_name (name_of a) (name_of b) }
{
    a == b
}

// By the slices, as is_body: no derive writes == for a table, whose unused places do not count.
pub fn is_list(a: Names, b: Names) -> bool
    ensures { result ≡ same_names (names_of a) (names_of b) }
{
    a.as_slice() == b.as_slice()
}

// The message is among the names from a place on. They come whole: a part of a slice within a closure left goals that did not close.
fn is_listed(name: Name, names: &[Name], from: usize) -> bool
    ensures { result ≡ listed (name_of name) (map name_of (drop from names.now)) }
{
    names
        .iter()
        .skip(from)
        .any(|other| is_message(name, *other))
}

// A message is named twice.
pub fn is_twice(names: Names) -> bool
    ensures { result ≡ twice (names_of names) }
{
    let names = names.as_slice();
    names
        .iter()
        .enumerate()
        .any(|(i, name)| is_listed(*name, names, i + 1))
}

// As is_list; a definition of its own in the model.
pub fn is_body(a: Body, b: Body) -> bool
    ensures { result ≡ same_bytes (body_of a) (body_of b) }
{
    a.as_slice() == b.as_slice()
}
