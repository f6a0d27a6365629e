ghost use Rattle.std.specs.Prelude.{◌<◌};

use crate::{
    Failed, Inputs, MemoryInputs, MemorySink, ReadError, Sink, StdInputs, StdSink, read_all,
    write_all,
};
use std::alloc::{AllocError, Global};
use std::fs;
use std::test::Fail;

// One file of five bytes, and one of none.
fn two_files(alloc: Global, most: usize, fail_at: &[u64]) -> Result<MemoryInputs, AllocError>
    requires { 0 < most }
{
    let files = vec![in alloc; b"words".to_vec(alloc)?, Vec::new(alloc)]?;
    Ok(MemoryInputs::new(files, most, fail_at.to_vec(alloc)?))
}

#[test]
fn reads_a_whole_file_in_pieces(rt: HostRuntime) -> Result<(), Fail> {
    let alloc = rt.alloc();
    for most in 1..8 {
        for (slot, limit, want) in [
            (0, 5, Ok(b"words".as_slice())),
            (0, 4, Err(ReadError::TooLong)),
            (0, 1, Err(ReadError::TooLong)),
            (1, 1, Ok(b"")),
            (9, 1, Ok(b"")),
        ] {
            let mut inputs = two_files(alloc, most, &[])?;
            let got = read_all(alloc, &mut inputs, slot, limit);
            let got = got
                .as_ref()
                .map(|bytes| bytes.as_slice())
                .map_err(|error| *error);
            assert_eq!(rt;
                got,
                want,
                "slot {slot}, limit {limit}, {most} bytes a call"
            );
        }
    }
    Ok(())
}

#[test]
fn fails_where_a_read_fails(rt: HostRuntime) -> Result<(), Fail> {
    let alloc = rt.alloc();
    for call in 0..8 {
        let mut inputs = two_files(alloc, 1, &[call])?;
        let got = read_all(alloc, &mut inputs, 0, 5).map(|bytes| bytes.len());
        let want = if call < 6 {
            Err(ReadError::Failed)
        } else {
            Ok(5)
        };
        assert_eq!(rt; got, want, "a failure at call {call}");
    }
    Ok(())
}

#[test]
fn writes_all_or_a_part(rt: HostRuntime) -> Result<(), Fail> {
    let alloc = rt.alloc();
    for (room, most, fail_at, want, left) in [
        (5, 9, 9, Ok(()), b"words".as_slice()),
        (9, 1, 5, Ok(()), b"words"),
        (3, 9, 9, Err(Failed), b"wor"),
        (0, 9, 9, Err(Failed), b""),
        (9, 2, 1, Err(Failed), b"wo"),
        (9, 1, 4, Err(Failed), b"word"),
    ] {
        let mut sink = MemorySink::new(alloc, room, most, vec![in alloc; fail_at]?)?;
        assert_eq!(rt;
            write_all(&mut sink, b"words"),
            want,
            "room {room}, call {fail_at}"
        );
        assert_eq!(rt; sink.taken(), left, "room {room}, call {fail_at}");
    }
    Ok(())
}

#[test]
fn reads_and_writes_outside(rt: HostRuntime) -> Result<(), Fail> {
    let alloc = rt.alloc();
    fs::write(&rt, "words.txt", "words")?;
    let mut inputs = StdInputs::new(&rt, Some("words.txt"), Some("nothing.txt"));
    let bytes = read_all(alloc, &mut inputs, 0, 5).map_err(|_| "the file is not read")?;
    assert_eq!(rt; bytes.as_slice(), b"words".as_slice());
    assert_eq!(rt; inputs.read(1, &mut [0; 4]), Err(Failed));
    assert_eq!(rt; inputs.read(2, &mut [0; 4]), Ok(0));
    assert_eq!(rt; StdInputs::new(&rt, None, None).read(0, &mut [0; 4]), Ok(0));
    fs::remove_file(&rt, "words.txt")?;

    let mut room = [0; 6];
    let mut sink = StdSink::new(room.as_mut_slice());
    assert_eq!(rt; write_all(&mut sink, b"words"), Ok(()));
    assert_eq!(rt; write_all(&mut sink, b"words"), Err(Failed));
    assert_eq!(rt; &room, b"wordsw");
    Ok(())
}
