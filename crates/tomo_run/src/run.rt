// The top call.
ghost use Rattle.std.specs.Prelude.{◌≡◌, ◌≢◌, ◌++◌, None, IfSome, IsTrue};
ghost use Rattle.outside.specs.Causes.{Rose};
ghost use Rattle.tomo_run.specs.Table.{shape, file_words};
ghost use Rattle.tomo_run.specs.Status.{IsResult};
ghost use Rattle.tomo_run.specs.Headline.{PrintedIsTaken, PrintedIsReportedGood, ChosenIsReportedGood, PathsAreReportedGood, PrintedNamesNoPath};
ghost use Rattle.tomo_run.specs.Run.{AddsFront, StopsAtRefusal, KnowsAll, Wrote};

use crate::gather::gather;
use crate::laws::{
    a_chosen_plan_is_reported_good, a_printed_plan_is_reported_good, a_printed_plan_is_taken,
    a_printed_plan_names_no_path, printed_paths_are_reported_good,
};
use crate::output::output_of;
use crate::table::shape_of;
use crate::write::write_all;
use answers::Status;
use outside::{Shelf, ShelfFault, Sink};
use std::alloc::Global;
use tomo_base::Words;

/// Does what the words say.
pub fn tomo<S: Shelf, K: Sink>(alloc: Global, words: &Words, shelf: &mut S, sink: &mut K) -> Status
    // This status comes exactly where the words have no shape.
    ensures usage { result ≡ Status.Usage → shape words.now ≡ None }
    ensures no_shape { shape words.now ≡ None → result ≡ Status.Usage }

    // Only files of the words are asked for, in their order, and none after a refused one.
    ensures asked { AddsFront (S.asked shelf.old) (S.asked shelf.new) (file_words words.now) }
    ensures stops { IfSome (S.told shelf.old) (λ files. StopsAtRefusal files words.now (S.asked shelf.old) (S.asked shelf.new)) }
    ensures nothing_asked { result ≡ Status.Usage → S.asked shelf.new ≡ S.asked shelf.old }
    ensures all_asked { IsResult result → S.asked shelf.new ≡ S.asked shelf.old ++ file_words words.now }

    // A fault comes only where its device has failed in this call.
    ensures read_fault { result ≡ Status.ReadFault → Rose (S.faults shelf.old) (S.faults shelf.new) }
    ensures write_fault { result ≡ Status.WriteFault → Rose (K.faults sink.old) (K.faults sink.new) }
    ensures sure { IsTrue (S.sure shelf.old) → KnowsAll (S.told shelf.old) (file_words words.now) → result ≢ Status.ReadFault }

    // A good plan that was printed is taken by `solve`, and never refused.
    ensures taken { PrintedIsTaken }

    // A plan that was printed is reported good by `check`: that of `plan`, under a choice or not, with two equal numbers, that of `paths`
    // with the bound 0.
    ensures reported { PrintedIsReportedGood }
    ensures chosen_reported { ChosenIsReportedGood }
    ensures paths_reported { PathsAreReportedGood }

    // Over a plan that was printed `solve` refuses no round for a path.
    ensures no_path { PrintedNamesNoPath }

    // What is written is that of a run.
    ensures wrote { Wrote (S.told shelf.old) words.now result (K.sure sink.old) (K.taken sink.old) (K.taken sink.new) }
{
    a_printed_plan_is_taken();
    a_printed_plan_is_reported_good();
    a_chosen_plan_is_reported_good();
    printed_paths_are_reported_good();
    a_printed_plan_names_no_path();
    let shape = match shape_of(words) {
        Some(shape) => shape,
        None => return Status::Usage,
    };
    let end = match gather(alloc, words, shape, shelf) {
        Ok(end) => end,
        Err(ShelfFault::NoMemory) => return Status::NoMemory,
        Err(ShelfFault::Failed) => return Status::ReadFault,
    };
    let output = match output_of(alloc, words, shape, end) {
        Ok(output) => output,
        Err(_) => return Status::NoMemory,
    };
    if write_all(sink, &output.bytes) {
        output.status
    } else {
        Status::WriteFault
    }
}
