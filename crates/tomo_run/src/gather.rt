// Asking for one file after the other.
ghost use Rattle.std.specs.Prelude.{◌≡◌, ◌≢◌, Some, IfOk, IfSome, IsTrue};
ghost use Rattle.outside.specs.Causes.{Rose};
ghost use Rattle.tomo_run.specs.Table.{shape as shape_in, file_words};
ghost use Rattle.tomo_run.specs.Machine.{start, EndIsFit};
ghost use Rattle.tomo_run.specs.Run.{AddsFront, AsksOnly, AsksAll, KnowsAll, LeadsTo};

use crate::machine::{End, Next, begin, feed};
use crate::table::Shape;
use answers::limit_of;
use outside::{Shelf, ShelfFault};
use std::alloc::Global;
use tomo_base::Words;

/// Asks for the files of the words, one after the other, until the reading ends.
pub fn gather<S: Shelf>(
    alloc: Global,
    words: &Words,
    shape: Shape,
    shelf: &mut S,
) -> Result<End, ShelfFault>
    requires { shape_in words.now ≡ Some shape }
    ensures asked { AddsFront (S.asked shelf.old) (S.asked shelf.new) (file_words words.now) }
    ensures stops { IfSome (S.told shelf.old) (λ files. AsksOnly files (file_words words.now) (start shape) (S.asked shelf.old) (S.asked shelf.new)) }
    ensures all_asked { IfOk result (λ end. AsksAll (S.asked shelf.old) (S.asked shelf.new) (file_words words.now) end) }
    ensures leads { IfOk result (λ end. LeadsTo (S.told shelf.old) (file_words words.now) (start shape) end) }
    ensures fit { IfOk result EndIsFit }
    ensures cause { result ≡ Err ShelfFault.Failed → Rose (S.faults shelf.old) (S.faults shelf.new) }
    ensures sure { IsTrue (S.sure shelf.old) → KnowsAll (S.told shelf.old) (file_words words.now) → result ≢ Err ShelfFault.Failed }
{
    let first = shape.first();
    let mut turn = 0;
    let mut wants = match begin(shape) {
        Next::Ask(wants) => wants,
        Next::Stop(end) => return Ok(end),
    };
    loop {
        let name = words.at(first + turn);
        let mut content = Vec::new(alloc);
        let got = shelf.read(alloc, name, limit_of(wants.kind()), &mut content)?;
        match feed(alloc, wants, name, got, content) {
            Ok(Next::Ask(later)) => wants = later,
            Ok(Next::Stop(end)) => return Ok(end),
            Err(_) => return Err(ShelfFault::NoMemory),
        }
        turn += 1;
    }
}
