//! Each call once with ample memory, and each edge against the real system.

use fb_files::{
    DiskFiles, Files, LoadError, MemoryFiles, MemorySink, Sink, StdoutSink, WriteError,
};
use std::alloc::{AllocError, Global};
use std::fs;
use std::test::Fail;

fn is_answer(answer: &Result<Vec<u8>, LoadError>, wanted: Result<&[u8], LoadError>) -> bool {
    match (answer, wanted) {
        (Ok(bytes), Ok(wanted)) => bytes.as_slice() == wanted,
        (Err(error), Err(wanted)) => *error == wanted,
        _ => false,
    }
}

// Two files with one name, and one with another.
fn three_files(alloc: Global) -> Result<Vec<(String, Vec<u8>)>, AllocError> {
    let mut files = Vec::new(alloc);
    for (name, bytes) in [("a", "first"), ("a", "second"), ("b", "")] {
        files.push((
            String::from_str(alloc, name)?,
            Vec::from_slice(alloc, bytes.as_bytes())?,
        ))?;
    }
    Ok(files)
}

fn write_twice<F: Files>(files: &mut F, name: &str, piece: &[u8]) -> Result<(), WriteError> {
    files.create(name)?;
    files.append(piece)?;
    files.append(piece)
}

#[test]
fn memory_files_are_loaded(rt: HostRuntime) -> Result<(), Fail> {
    let alloc = rt.alloc();
    let mut files = MemoryFiles::new(alloc, three_files(alloc)?, Vec::new(alloc))?;
    let loads = [
        ("a", 5, Ok(b"first".as_slice()), 0),
        ("a", 4, Err(LoadError::TooLong), 0),
        ("b", 0, Ok(b"".as_slice()), 0),
        ("c", 5, Err(LoadError::Failed), 1),
    ];
    for (name, limit, wanted, faults) in loads {
        assert!(rt;
            is_answer(&files.load(alloc, name, limit), wanted),
            "{name} {limit}"
        );
        assert_eq!(rt; files.faults(), faults);
    }
    assert_eq!(rt; files.asked().len(), 4);
    Ok(())
}

#[test]
fn memory_files_fail_as_planned(rt: HostRuntime) -> Result<(), Fail> {
    let alloc = rt.alloc();
    let cases = [
        (1, true, Ok(()), "xx"),
        (2, false, Err(WriteError::Failed), "first"),
        (3, false, Err(WriteError::Failed), ""),
        (4, false, Err(WriteError::Failed), "x"),
    ];
    for (number, load_fails, written, held) in cases {
        let fails = vec![in alloc; number]?;
        let mut files = MemoryFiles::new(alloc, three_files(alloc)?, fails)?;
        assert_eq!(rt; files.load(alloc, "a", 5).is_err(), load_fails);
        assert_eq!(rt; write_twice(&mut files, "a", b"x"), written);
        assert!(rt;
            files
                .content("a")
                .is_some_and(|bytes| bytes == held.as_bytes()),
            "{number}"
        );
        assert_eq!(rt; files.faults(), 1);
    }
    Ok(())
}

/// Appends that fail as the third call, with how many of their bytes they add, and what is held then.
const PARTS: &[(&[(u64, u64)], &str)] = &[
    (&[(3, 0)], ""),
    (&[(3, 2)], "xy"),
    (&[(3, 2), (3, 1)], "xy"),
    (&[(4, 1), (3, u64::MAX)], "xyz"),
    (&[(4, 1)], "xyzx"),
];

#[test]
fn a_failing_append_adds_a_part(rt: HostRuntime) -> Result<(), Fail> {
    let alloc = rt.alloc();
    for (fails, held) in PARTS {
        let fails = Vec::from_slice(alloc, fails)?;
        let mut files = MemoryFiles::new_partial(alloc, three_files(alloc)?, fails)?;
        assert!(rt; files.load(alloc, "a", 5).is_ok());
        assert_eq!(rt;
            write_twice(&mut files, "a", b"xyz"),
            Err(WriteError::Failed)
        );
        assert!(rt;
            files
                .content("a")
                .is_some_and(|bytes| bytes == held.as_bytes()),
            "{held}"
        );
        assert_eq!(rt; files.faults(), 1);
    }
    Ok(())
}

#[test]
fn memory_sink_fails_as_planned(rt: HostRuntime) -> Result<(), Fail> {
    let mut sink = MemorySink::new(rt.alloc(), vec![in rt.alloc(); 2]?)?;
    for (bytes, answer) in [("a", Ok(())), ("b", Err(WriteError::Failed)), ("c", Ok(()))] {
        assert_eq!(rt; sink.put(bytes.as_bytes()), answer);
    }
    assert_eq!(rt; sink.sent(), b"ac".as_slice());
    assert_eq!(rt; sink.faults(), 1);
    Ok(())
}

#[test]
fn disk_files_are_written_and_loaded(rt: HostRuntime) -> Result<(), Fail> {
    let alloc = rt.alloc();
    let piece = vec![in alloc; b'x'; 6000]?;
    let whole = vec![in alloc; b'x'; 12_000]?;
    let mut files = DiskFiles::new(alloc, &rt);
    assert_eq!(rt; write_twice(&mut files, "held", &piece), Ok(()));
    let loads = [
        ("held", 12_000, Ok(whole.as_slice()), 0),
        ("held", 11_999, Err(LoadError::TooLong), 0),
        ("held", u64::MAX, Ok(whole.as_slice()), 0),
        ("missing", 12_000, Err(LoadError::Failed), 1),
    ];
    for (name, limit, wanted, faults) in loads {
        assert!(rt;
            is_answer(&files.load(alloc, name, limit), wanted),
            "{name} {limit}"
        );
        assert_eq!(rt; files.faults(), faults);
    }
    assert_eq!(rt; files.create("missing/held"), Err(WriteError::Failed));
    assert_eq!(rt; write_twice(&mut files, "held", b""), Ok(()));
    assert!(rt; is_answer(&files.load(alloc, "held", 0), Ok(b"".as_slice())));
    assert_eq!(rt; files.faults(), 2);
    fs::remove_file(&rt, "held")?;
    Ok(())
}

#[test]
fn stdout_takes_bytes(rt: HostRuntime) {
    let mut sink = StdoutSink::new(&rt);
    assert_eq!(rt; sink.put(b"sent\n"), Ok(()));
    assert_eq!(rt; sink.faults(), 0);
}
