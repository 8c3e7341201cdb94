ghost use Rattle.std.specs.Prelude.{◌≡◌, List};
ghost use Rattle.frames.specs.Stream.{Told, End, Stands};
ghost use Rattle.frames.specs.Reading.{left, Opens, Steps, Repeats, Gives};

use crate::item::{Item, first_frame};
use crate::reader::{Fault, Reader};
use lengths::Length;
use std::marker::PhantomData;

impl<'a, L: Length> Reader<'a, L> {
    // A reader at the first byte of a stream.
    pub fn new(input: &'a [u8]) -> Reader<'a, L>
        ensures { Opens L.Length.meaning input.now result }
    {
        Reader {
            input,
            place: 0,
            kind: PhantomData,
        }
    }

    // The bytes that have not been read yet.
    pub fn rest(&self) -> &'a [u8]
        ensures { result.now ≡ left self.now }
    {
        &self.input[self.place..]
    }

    // The next frame's item, or nothing at the input's end. At a frame that cannot be read it stays.
    // It is not `Iterator::next`: a fault is answered for ever, so that no `for` over a reader could be proved to end.
    pub fn next(&mut self) -> Option<Result<Item<'a>, Fault>>
        ensures step { Steps L.Length.meaning self.old result self.new }
        ensures again { Repeats L.Length.meaning result self.new }
        ensures stream { (items : List Told) (end : End) → Stands L.Length.meaning self.old.place (left self.old) items end → Gives L.Length.meaning result items end self.new }
    {
        let rest = self.rest();
        if rest.is_empty() {
            return None;
        }
        match first_frame::<L>(rest) {
            Ok(framed) => {
                self.place += framed.size;
                Some(Ok(framed.item))
            }
            Err(fault) => Some(Err(Fault {
                place: self.place,
                fault,
            })),
        }
    }
}
