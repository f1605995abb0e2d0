//! The outside of the program: files, sources of bytes and sinks for bytes, as traits.
//!
//! Each trait counts its faults, so that a contract can say that a call failed only where
//! the count rose, and each has its content as a meaning where it is told. The forms in
//! memory tell theirs; real files and streams do not.
#![tactic(auto)]

mod memory;
mod outside;
mod script;

pub use memory::{MemFiles, MemSink, MemSource};
pub use outside::{Failed, Fetched, Files, Sink, Source, write_all};

#[cfg(test)]
mod tests {
    use super::*;
    use std::test::Fail;

    #[test]
    fn the_forms_in_memory_give_take_and_fail(rt: HostRuntime) -> Result<(), Fail> {
        let alloc = rt.alloc();
        let mut input = MemSource::new(alloc, b"abc", 2)?;
        input.fail_at(1)?;
        let mut buf = [0u8; 8];
        assert_eq!(rt; input.read(&mut buf), Ok(2));
        assert_eq!(rt; &buf[..2], b"ab".as_slice());
        assert_eq!(rt; input.read(&mut buf), Err(Failed));
        assert_eq!(rt; input.read(&mut buf), Ok(1));
        assert_eq!(rt; input.read(&mut buf), Ok(0));
        let mut sink = MemSink::new(alloc, 4)?;
        assert_eq!(rt; write_all(&mut sink, b"abc"), Ok(()));
        assert_eq!(rt; write_all(&mut sink, b"de"), Err(Failed));
        assert_eq!(rt; sink.taken(), b"abcd".as_slice());
        let mut files = MemFiles::new(alloc);
        files.add("a", b"12")?;
        assert!(rt; matches!(files.fetch(alloc, "a", 1), Fetched::TooLong));
        assert!(rt; matches!(files.fetch(alloc, "a", 2), Fetched::Found(_)));
        assert!(rt; matches!(files.fetch(alloc, "b", 2), Fetched::Absent));
        Ok(())
    }
}
