// Runs over devices in memory.
use outside::{MemShelf, MemSink};
use std::alloc::Global;
use std::test::Fail;
use tomo_base::Words;
use tomo_run::{Status, tomo};

// Names, and the contents of the files of these names.
pub type Files<'a> = &'a [(&'a str, &'a [u8])];

// At most ten words.
pub fn words_of(alloc: Global, words: &[&str]) -> Result<Words, Fail> {
    let mut all = Words::new(alloc);
    for &word in words {
        if all.len() < 10 {
            all.push(word)?;
        }
    }
    Ok(all)
}

// A shelf with these files.
pub fn shelf_of(alloc: Global, files: Files<'_>) -> Result<MemShelf, Fail> {
    let mut shelf = MemShelf::new(alloc);
    for &(name, content) in files {
        shelf.put(name, content)?;
    }
    Ok(shelf)
}

// How a run over a shelf ends, and what it writes.
fn run_on(alloc: Global, words: &[&str], mut shelf: MemShelf) -> Result<(Status, MemSink), Fail> {
    let words = words_of(alloc, words)?;
    let mut sink = MemSink::new(alloc, 1 << 24, 1000)?;
    let status = tomo(alloc, &words, &mut shelf, &mut sink);
    Ok((status, sink))
}

// How a run over the files ends, and what it writes.
pub fn run(alloc: Global, words: &[&str], files: Files<'_>) -> Result<(Status, MemSink), Fail> {
    run_on(alloc, words, shelf_of(alloc, files)?)
}

// Whether a run over the files ends so and writes just this.
pub fn ends_so(
    alloc: Global,
    words: &[&str],
    files: Files<'_>,
    status: Status,
    output: &[u8],
) -> Result<bool, Fail> {
    let (ended, sink) = run(alloc, words, files)?;
    Ok(ended == status && sink.bytes() == output)
}

// Whether these words over a topology write just this, and all is done.
pub fn is_done(
    alloc: Global,
    words: &[&str],
    topology: &[u8],
    output: &[u8],
) -> Result<bool, Fail> {
    ends_so(alloc, words, &[("t", topology)], Status::Done, output)
}

// A topology and one more file, how a command over them ends, and what it writes.
pub type Told<'a> = ([&'a [u8]; 2], Status, &'a [u8]);

// Whether a command ends and writes as each row of a table says.
pub fn all_end_so(alloc: Global, command: &str, table: &[Told<'_>]) -> Result<bool, Fail> {
    for &([topology, other], status, output) in table {
        let (ended, sink) = run_over_two(alloc, command, topology, other)?;
        if ended != status || sink.bytes() != output {
            return Ok(false);
        }
    }
    Ok(true)
}

// How a command over a topology and one more file ends, and what it writes.
pub fn run_over_two(
    alloc: Global,
    command: &str,
    topology: &[u8],
    other: &[u8],
) -> Result<(Status, MemSink), Fail> {
    run(
        alloc,
        &[command, "t", "f"],
        &[("t", topology), ("f", other)],
    )
}

// Whether `plan` prints a plan for the topology that begins with these rows.
pub fn plan_begins(alloc: Global, topology: &[u8], rows: &[u8]) -> Result<bool, Fail> {
    let (status, sink) = run(alloc, &["plan", "t"], &[("t", topology)])?;
    Ok(status == Status::Done && sink.bytes().starts_with(rows))
}

// What another command writes over the topology, the plan that these words print for it, and the rounds.
pub fn run_over_plan(
    alloc: Global,
    planning: &[&str],
    words: &[&str],
    files: Files<'_>,
) -> Result<(Status, MemSink), Fail> {
    let (_, plan) = run(alloc, planning, files)?;
    let mut shelf = shelf_of(alloc, files)?;
    shelf.put("p", plan.bytes())?;
    run_on(alloc, words, shelf)
}

// How many lines begin with a word.
pub fn lines_of(text: &[u8], word: &[u8]) -> u32 {
    let mut count = 0u32;
    for line in text.split(|byte| *byte == b'\n') {
        if line.starts_with(word) {
            count = count.wrapping_add(1);
        }
    }
    count
}
