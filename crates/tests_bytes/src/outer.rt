//! Each implementation of files and sinks once: those in memory, and the trusted edge of the system.
use dj_outer::{DiskFiles, Files, LoadFault, Loaded, MemoryFiles, MemorySink, Sink, StreamSink};
use std::alloc::{AllocError, Global};
use std::io::Write;
use std::test::Fail;
use std::{fs, io};

/// The files with these names and texts, of which the load of this number fails.
fn files_in_memory(
    alloc: Global,
    texts: &[(&str, &str)],
    failing: u64,
) -> Result<MemoryFiles, AllocError> {
    let mut files = Vec::new(alloc);
    for (name, text) in texts {
        files.push(file_in_memory(alloc, name, text)?)?;
    }
    Ok(MemoryFiles::new(alloc, files, one_number(alloc, failing)?))
}

fn file_in_memory(alloc: Global, name: &str, text: &str) -> Result<(String, Vec<u8>), AllocError> {
    let bytes = Vec::from_slice(alloc, text.as_bytes())?;
    Ok((String::from_str(alloc, name)?, bytes))
}

fn one_number(alloc: Global, number: u64) -> Result<Vec<u64>, AllocError> {
    let mut numbers = Vec::new(alloc);
    numbers.push(number)?;
    Ok(numbers)
}

/// What a load gives: the bytes of a file, or a word.
fn loaded(
    alloc: Global,
    files: &mut impl Files,
    name: &str,
    limit: usize,
) -> Result<Vec<u8>, AllocError> {
    match files.load(alloc, name, limit) {
        Ok(Loaded::Whole(bytes)) => Ok(bytes),
        Ok(Loaded::Over) => Vec::from_slice(alloc, b"over"),
        Err(LoadFault::Failed) => Vec::from_slice(alloc, b"failed"),
        Err(LoadFault::Memory(error)) => Err(error),
    }
}

#[test]
fn files_in_memory_fail_where_they_are_told_to(rt: HostRuntime) -> Result<(), Fail> {
    let texts = [("a", "12"), ("b", ""), ("a", "3")];
    let mut files = files_in_memory(rt.alloc(), &texts, 2)?;
    for (name, limit, wanted) in [
        ("a", 2, "12"),
        ("a", 1, "over"),
        ("b", 0, "failed"),
        ("b", 0, ""),
        ("c", 9, "failed"),
    ] {
        let told = loaded(rt.alloc(), &mut files, name, limit)?;
        assert_eq!(rt; told.as_slice(), wanted.as_bytes(), "{wanted} of {name}");
    }
    Ok(())
}

fn sink_in_memory(alloc: Global, room: usize, failing: u64) -> Result<MemorySink, AllocError> {
    MemorySink::new(alloc, room, one_number(alloc, failing)?)
}

#[test]
fn a_sink_in_memory_stops_at_its_room(rt: HostRuntime) -> Result<(), Fail> {
    let mut sink = sink_in_memory(rt.alloc(), 4, 1)?;
    for (piece, taken) in [
        ("abc", true),
        ("d", false),
        ("de", false),
        ("d", true),
        ("", true),
    ] {
        assert_eq!(rt; sink.put(piece.as_bytes()).is_ok(), taken, "at {piece}");
    }
    assert_eq!(rt; sink.taken(), "abcd".as_bytes());
    Ok(())
}

#[test]
fn a_file_of_the_disk_is_whole_up_to_the_limit(rt: HostRuntime) -> Result<(), Fail> {
    let five = "loaded_by_the_test";
    fs::write(&rt, five, "five!")?;
    let mut files = DiskFiles::new(&rt);
    for (name, limit, wanted) in [
        (five, 5, "five!"),
        (five, usize::MAX, "five!"),
        (five, 4, "over"),
        ("not_made_by_the_test", 9, "failed"),
        (".", 9, "failed"),
    ] {
        let told = loaded(rt.alloc(), &mut files, name, limit)?;
        assert_eq!(rt; told.as_slice(), wanted.as_bytes(), "{wanted} of {name}");
    }
    fs::remove_file(&rt, five)?;
    Ok(())
}

/// Takes two bytes at a time, none past its room. Once it took this many, each call is an error.
#[derive(Drop)]
struct Narrow {
    taken: Vec<u8>,
    room: usize,
    breaks_at: usize,
}

impl Write for Narrow {
    fn write(&mut self, buf: &[u8]) -> io::Result<usize> {
        self.flush()?;
        let left = self.room.saturating_sub(self.taken.len());
        let count = left.min(buf.len()).min(2);
        self.taken.extend_from_slice(&buf[..count])?;
        Ok(count)
    }

    fn flush(&mut self) -> io::Result<()> {
        if self.taken.len() == self.breaks_at {
            return Err(io::ErrorKind::Other.into());
        }
        Ok(())
    }
}

/// What a narrow writer took of a piece, and whether the put was whole.
fn put_narrow(
    alloc: Global,
    room: usize,
    breaks_at: usize,
    piece: &str,
) -> Result<(bool, Vec<u8>), AllocError> {
    let mut writer = Narrow {
        taken: Vec::with_capacity(alloc, room)?,
        room,
        breaks_at,
    };
    let put = StreamSink::new(&mut writer).put(piece.as_bytes());
    Ok((put.is_ok(), writer.taken))
}

#[test]
fn short_writes_are_joined_and_an_error_is_a_fault(rt: HostRuntime) -> Result<(), Fail> {
    for (room, breaks_at, wanted, text) in [
        (9, 9, true, "abcde"),
        (3, 9, false, "abc"),
        (9, 4, false, "abcd"),
        (9, 5, false, "abcde"),
        (9, 0, false, ""),
    ] {
        let (whole, taken) = put_narrow(rt.alloc(), room, breaks_at, "abcde")?;
        let same = whole == wanted && taken.as_slice() == text.as_bytes();
        assert!(rt; same, "at {room} and {breaks_at}");
    }
    Ok(())
}

#[test]
fn nothing_is_put_whole(rt: HostRuntime) {
    assert!(rt; StreamSink::new(Vec::new(rt.alloc())).put(&[]).is_ok());
}
