ghost use Rattle.std.specs.Prelude.{◌≡◌, ◌≤◌, length};

pub mod operations;

/// A kind of entry that has a blank, which stands where nothing is bound.
pub trait Blank: Copy {
    ghost blank: { Self };

    fn blank() -> Self
        ensures blank { result ≡ blank };
}

/// An entry with the slot that it is bound to.
#[derive(Clone, Copy, PartialEq, Eq, Debug)]
pub struct Binding<E> {
    pub slot: u16,
    pub entry: E,
}

/// The bindings in a lent slice, of which the first `count` are in use, the oldest first.
#[derive(Drop)]
pub struct Mapping<'a, E> {
    // a slice with a count, and no vector: the memory is lent, so that a bind never allocates
    bindings: &'a mut [Binding<E>],
    count: usize,
    ghost fits: { count ≤ length bindings.now },
}
