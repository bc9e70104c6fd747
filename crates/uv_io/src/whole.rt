//! Reading all there is, and writing all of it.
ghost use Rattle.std.specs.Prelude.{◌≡◌, ◌≤◌, OnOk};
ghost use Rattle.std.specs.Io.KnownBytes.{Appends};
ghost use Rattle.uv_io.specs.Faults.{HasCause, Rose};
ghost use Rattle.uv_io.specs.Whole.{ReadAllGives, WritesPrefix};

use super::failed::Failed;
use super::sink::Sink;
use super::source::Source;
use std::alloc::Global;
use uv_num::Bytes;

/// What became of reading a source to its end.
#[derive(Debug, Drop)]
pub enum ReadAll {
    /// All that was left, read to its end.
    Bytes(Bytes),
    /// A read failed.
    ReadFault,
    /// More bytes came than were allowed.
    TooLong,
    /// Memory ran out.
    NoMemory,
}

/// How many bytes are asked for at a time, where as many may still come.
const BLOCK: usize = 4096;

/// Reads all that is left, at most `most` bytes.
///
/// `TooLong` comes as soon as more than `most` bytes came, and `most + 1` were then read. `ReadFault` comes only where
/// the source's count of faults rose. Each turn but the last takes at least one byte, so it returns.
pub fn read_all<S: Source>(alloc: Global, source: &mut S, most: u32) -> ReadAll
    ensures gives { ReadAllGives (S.left source.old) (S.left source.new) most result }
    ensures later { S.faults source.old ≤ S.faults source.new }
    ensures fault { result ≡ ReadAll.ReadFault → Rose (S.faults source.old) (S.faults source.new) }
{
    let mut all = Vec::new(alloc);
    let mut block = [0u8; BLOCK];
    for _turn in 0..u64::from(most) + 1 {
        let size = (most as usize + 1 - all.len()).min(BLOCK);
        match source.read(&mut block[..size]) {
            Err(Failed) => return ReadAll::ReadFault,
            Ok(0) => return ReadAll::Bytes(Bytes::from_vec(all)),
            Ok(count) => {
                if all.extend_from_slice(&block[..count]).is_err() {
                    return ReadAll::NoMemory;
                }
                if all.len() > most as usize {
                    return ReadAll::TooLong;
                }
            }
        }
    }
    unreachable!()
}

/// Writes all the bytes.
///
/// `Err` comes only where the sink's count of faults rose, and then a prefix of the bytes was written.
pub fn write_all<K: Sink>(sink: &mut K, bytes: &[u8]) -> Result<(), Failed>
    ensures ok { OnOk result (Appends (K.written sink.old) (K.written sink.new) bytes.now) }
    ensures prefix { WritesPrefix (K.written sink.old) (K.written sink.new) bytes.now }
    ensures cause { HasCause (K.faults sink.old) (K.faults sink.new) result }
{
    let mut done = 0;
    while done < bytes.len() {
        match sink.write(&bytes[done..]) {
            Err(Failed) => return Err(Failed),
            Ok(0) => return Err(Failed),
            Ok(count) => done += count,
        }
    }
    Ok(())
}

#[cfg(test)]
mod tests;
