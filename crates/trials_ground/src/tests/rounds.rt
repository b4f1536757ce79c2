// Rounds are read where memory is ample.
ghost use Rattle.std.specs.Prelude.{◌<◌, ◌^◌, length};

use round_reader::{RoundFault, Rounds, read_rounds};
use rows::read_rows;
use std::alloc::Global;
use std::test::Fail;

// What the rows of a text are read as, over three paths.
fn read(alloc: Global, text: &[u8]) -> Result<Result<Rounds, RoundFault>, Fail>
    requires { length text.now < 2 ^ 31 }
{
    let rows = read_rows(alloc, text)?;
    Ok(read_rounds(alloc, 3, &rows))
}

#[test]
fn sums_are_read(rt: HostRuntime) -> Result<(), Fail> {
    let rounds = read(
        rt.alloc(),
        b"5,6,7\n 0\t,00000000000000000001,2000000000000000000\n",
    )??;
    assert!(rt; rounds.len() == 2);
    assert!(rt; rounds.round(0) == [5, 6, 7].as_slice());
    assert!(rt; rounds.round(1) == [0, 1, 2_000_000_000_000_000_000].as_slice());
    Ok(())
}

#[test]
fn the_first_fault_is_told(rt: HostRuntime) -> Result<(), Fail> {
    let alloc = rt.alloc();
    assert!(rt; matches!(read(alloc, b"1,2,3\n1,x\n")?, Err(RoundFault::Width(2))));
    assert!(rt;
        matches!(
            read(alloc, b"1,+2,x\n1,2\n")?,
            Err(RoundFault::Number(1, 2))
        )
    );
    assert!(rt;
        matches!(
            read(alloc, b"1,2000000000000000001,3\n")?,
            Err(RoundFault::Number(1, 2))
        )
    );
    assert!(rt;
        matches!(
            read(alloc, b"1,2,000000000000000000003\n")?,
            Err(RoundFault::Number(1, 3))
        )
    );
    Ok(())
}
