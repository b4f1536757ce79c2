//! Plans the measuring of link delays.
#![tactic(auto)]

ghost use Rattle.std.specs.Prelude.{◌≡◌, drop, map, string_bytes, IfOk};
ghost use Rattle.std.specs.Vec.Iter.{into_iter_items};

use outside::{FileShelf, StdSink};
use std::alloc::Global;
use std::env;
use std::env::Args;
use std::io::ErrorKind;
use std::process::ExitCode;
use tomo_base::{NoMemory, Words};
use tomo_run::{Status, exit_status, fault_line, tomo};

// Why the words of the command line could not be had.
enum NoWords {
    NoMemory,
    Unreadable,
}

impl From<NoMemory> for NoWords {
    ghost use Rattle.tomo.specs.declared.NoWords.TheVariants.{NoMemory};

    ghost from_gives = { λ _ e. e ≡ NoMemory };

    fn from(_e: NoMemory) -> NoWords {
        NoWords::NoMemory
    }
}

// The words after the first of them, which is the program's name.
fn words_after_name(alloc: Global, mut args: Args) -> Result<Words, NoWords>
    ensures { IfOk result (λ words. words ≡ map string_bytes (drop 1 (into_iter_items args))) }
{
    let mut words = Words::new(alloc);
    let _name = args.next();
    for word in args {
        if words.len() == u32::MAX {
            return Err(NoWords::NoMemory);
        }
        words.push(word.as_str())?;
    }
    Ok(words)
}

// The words of the command line.
fn words_of(rt: &(impl std::rt::Env + AllocGlobal)) -> Result<Words, NoWords> {
    match env::args(rt) {
        Ok(args) => words_after_name(rt.alloc(), args),
        Err(e) if e.kind() == ErrorKind::OutOfMemory => Err(NoWords::NoMemory),
        Err(_) => Err(NoWords::Unreadable),
    }
}

fn main(rt: HostRuntime) -> ExitCode {
    let status = match words_of(&rt) {
        Ok(words) => {
            let mut shelf = FileShelf::new(rt.alloc(), &rt);
            let mut sink = StdSink::new(&rt);
            tomo(rt.alloc(), &words, &mut shelf, &mut sink)
        }
        Err(NoWords::NoMemory) => Status::NoMemory,
        Err(NoWords::Unreadable) => Status::Usage,
    };
    let line = fault_line(&status);
    if !line.is_empty() {
        let _ = eprintln!(rt; "{line}");
    }
    ExitCode::from(exit_status(status))
}
