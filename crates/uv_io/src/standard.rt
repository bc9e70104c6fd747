//! The adapters over std's readers and writers, as over standard input and output.
ghost use Rattle.std.specs.Prelude.{◌≡◌, length};
ghost use Rattle.std.specs.Io.{ReadsAtMost, WritesAtMost};
ghost use Rattle.std.specs.Io.KnownBytes.{ReadConsumes, WriteAppends};
ghost use Rattle.uv_io.specs.Faults.{HasCause, HasWriteCause, read_faults, write_faults};

use super::failed::Failed;
use super::sink::Sink;
use super::source::Source;
use std::io::{Read, Write};
use std::marker::Model;

/// A source over a reader, as `StdSource::new(rt.stdin())`.
///
/// It tells the bytes that its reader tells: of standard input none. Each error of the reader is a fault, an
/// interrupted call among them, and what it was is dropped. The count stops at 2^64 - 1.
#[derive(Drop)]
pub struct StdSource<R> {
    reader: R,
    faults: u64,
}

impl<R> Model for StdSource<R> {
    ghost use Rattle.uv_io.specs.Standard.{Counted};

    ghost Value = { Counted R };

    ghost view = { λ s. record { inner = s.reader; faults = s.faults } };
}

impl<R: Read> StdSource<R> {
    /// A source over this reader, with no fault so far.
    pub fn new(reader: R) -> StdSource<R>
        ensures { result ≡ record { inner = reader; faults = 0 } }
    {
        StdSource { reader, faults: 0 }
    }
}

impl<R: Read> Source for StdSource<R> {
    ghost left = { λ s. R.remaining s.inner };

    ghost faults = { λ s. s.faults };

    fn read(&mut self, buf: &mut [u8]) -> Result<usize, Failed>
        ensures bound { ReadsAtMost result buf.new }
        ensures bytes { ReadConsumes (R.remaining self.old.inner) (R.remaining self.new.inner) result buf.new }
        ensures cause { HasCause self.old.faults self.new.faults result }

        // The count is that of the errors.
        ensures faults { self.new.faults ≡ read_faults self.old.faults result }
    {
        match self.reader.read(buf) {
            Ok(count) => Ok(count),
            Err(_) => {
                self.faults = self.faults.saturating_add(1);
                Err(Failed)
            }
        }
    }
}

/// A sink over a writer, as `StdSink::new(rt.stdout())`.
///
/// It tells the bytes that its writer tells: of standard output none. It never flushes, so give it a writer that
/// holds nothing back. Each error of the writer is a fault, an interrupted call among them, and what it was is
/// dropped; so is each piece, not empty, of which nothing was taken. The count stops at 2^64 - 1.
#[derive(Drop)]
pub struct StdSink<W> {
    writer: W,
    faults: u64,
}

impl<W> Model for StdSink<W> {
    ghost use Rattle.uv_io.specs.Standard.{Counted};

    ghost Value = { Counted W };

    ghost view = { λ s. record { inner = s.writer; faults = s.faults } };
}

impl<W: Write> StdSink<W> {
    /// A sink over this writer, with no fault so far.
    pub fn new(writer: W) -> StdSink<W>
        ensures { result ≡ record { inner = writer; faults = 0 } }
    {
        StdSink { writer, faults: 0 }
    }
}

impl<W: Write> Sink for StdSink<W> {
    ghost written = { λ s. W.contents s.inner };

    ghost faults = { λ s. s.faults };

    fn write(&mut self, piece: &[u8]) -> Result<usize, Failed>
        ensures bound { WritesAtMost result piece.now }
        ensures bytes { WriteAppends (W.contents self.old.inner) (W.contents self.new.inner) result piece.now }
        ensures cause { HasWriteCause self.old.faults self.new.faults piece.now result }

        // The count is that of the errors and of the pieces, not empty, of which nothing was taken.
        ensures faults { self.new.faults ≡ write_faults self.old.faults (length piece.now) result }
    {
        match self.writer.write(piece) {
            Ok(count) => {
                if count == 0 && !piece.is_empty() {
                    self.faults = self.faults.saturating_add(1);
                }
                Ok(count)
            }
            Err(_) => {
                self.faults = self.faults.saturating_add(1);
                Err(Failed)
            }
        }
    }
}

#[cfg(test)]
mod tests {
    use super::*;
    use std::io;
    use std::io::ErrorKind;
    use std::test::Fail;

    /// A reader and a writer that always fails.
    #[derive(Drop)]
    struct Broken;

    impl Read for Broken {
        fn read(&mut self, _buf: &mut [u8]) -> io::Result<usize> {
            Err(ErrorKind::Interrupted.into())
        }
    }

    impl Write for Broken {
        fn write(&mut self, _buf: &[u8]) -> io::Result<usize> {
            Err(ErrorKind::Interrupted.into())
        }

        fn flush(&mut self) -> io::Result<()> {
            Ok(())
        }
    }

    #[test]
    fn a_source_reads_what_its_reader_has(rt: HostRuntime) {
        let mut source = StdSource::new(b"abc".as_slice());
        let mut buf = [0; 2];
        assert_eq!(rt; source.read(&mut buf), Ok(2));
        assert_eq!(rt; buf, *b"ab");
        assert_eq!(rt; source.read(&mut buf), Ok(1));
        assert_eq!(rt; source.read(&mut buf), Ok(0));
        assert_eq!(rt; StdSource::new(Broken).read(&mut buf), Err(Failed));
    }

    #[test]
    fn a_sink_writes_what_its_writer_takes(rt: HostRuntime) -> Result<(), Fail> {
        let mut written = Vec::new(rt.alloc());
        let mut sink = StdSink::new(&mut written);
        assert_eq!(rt; sink.write(b"ab"), Ok(2));
        assert_eq!(rt; sink.write(b"c"), Ok(1));
        assert_eq!(rt; written.as_slice(), b"abc".as_slice());
        assert_eq!(rt; StdSink::new(Broken).write(b"ab"), Err(Failed));
        Ok(())
    }
}
