ghost use Rattle.std.specs.Prelude.{◌<◌, ◌≤◌, length};

use crate::{Got, MemorySink, MemorySource, Put, ReadSource, Sink, Source, SureSource, WriteSink};
use serna_kinds::Items;
use std::alloc::{AllocError, Global};
use std::io;
use std::io::{ErrorKind, Read, Write};
use std::test::Fail;

/// What five reads of a source into a buffer of `room` bytes answer, and the bytes that they give.
#[derive(Debug, Drop)]
struct Taken {
    answers: Vec<Got>,
    bytes: Vec<u8>,
}

fn read_five_times<S: Source>(
    alloc: Global,
    source: &mut S,
    room: usize,
) -> Result<Taken, AllocError>
    requires some { 0 < room }
    requires within { room ≤ 8 }
{
    let mut answers = Vec::new(alloc);
    let mut bytes = Vec::new(alloc);
    let mut buffer = [0u8; 8];
    for _ in 0..5u8 {
        let answer = source.read(&mut buffer[..room]);
        answers.push(answer)?;
        if let Got::Bytes(count) = answer {
            bytes.extend_from_slice(&buffer[..count])?;
        }
    }
    Ok(Taken { answers, bytes })
}

/// What three writes of a piece and then `finish` answer.
#[derive(Debug, Drop)]
struct Offered {
    answers: Vec<Put>,
    finished: bool,
}

fn write_three_times<K: Sink>(
    alloc: Global,
    sink: &mut K,
    piece: &[u8],
) -> Result<Offered, AllocError>
    requires { 0 < length piece.now }
{
    let mut answers = Vec::new(alloc);
    for _ in 0..3u8 {
        answers.push(sink.write(piece))?;
    }
    let finished = sink.finish();
    Ok(Offered { answers, finished })
}

/// A reader and a writer that fails at each call.
#[derive(Drop)]
struct Broken;

impl Read for Broken {
    fn read(&mut self, _into: &mut [u8]) -> io::Result<usize> {
        Err(io::Error::from(ErrorKind::Other))
    }
}

impl Write for Broken {
    fn write(&mut self, _piece: &[u8]) -> io::Result<usize> {
        Err(io::Error::from(ErrorKind::Other))
    }

    fn flush(&mut self) -> io::Result<()> {
        Err(io::Error::from(ErrorKind::Other))
    }
}

/// One line of the table of `MemorySource`: how the source is made, the buffer's length, and what five reads answer.
#[derive(Clone, Copy)]
struct Reading<'a> {
    most: usize,
    failing: &'a [u64],
    room: usize,
    answers: [Got; 5],
}

#[test]
fn sources_give_their_bytes(rt: HostRuntime) -> Result<(), Fail> {
    let alloc = rt.alloc();
    let bytes = Items::from_slice(alloc, b"abc")?;
    let sure = read_five_times(alloc, &mut SureSource::new(bytes), 2)?;
    let answers = [Got::Bytes(2), Got::Bytes(1), Got::End, Got::End, Got::End];
    assert_eq!(rt; sure.answers.as_slice(), answers.as_slice());
    assert_eq!(rt; sure.bytes.as_slice(), b"abc".as_slice());
    let table = [
        Reading {
            most: 1,
            failing: &[],
            room: 4,
            answers: [
                Got::Bytes(1),
                Got::Bytes(1),
                Got::Bytes(1),
                Got::End,
                Got::End,
            ],
        },
        Reading {
            most: 9,
            failing: &[3, 1],
            room: 2,
            answers: [
                Got::Failed,
                Got::Bytes(2),
                Got::Failed,
                Got::Bytes(1),
                Got::End,
            ],
        },
        Reading {
            most: 2,
            failing: &[5],
            room: 8,
            answers: [
                Got::Bytes(2),
                Got::Bytes(1),
                Got::End,
                Got::End,
                Got::Failed,
            ],
        },
    ];
    for row in table {
        let Reading {
            most,
            failing,
            room,
            answers,
        } = row;
        assert!(rt; 1 <= most && 1 <= room && room <= 8);
        let bytes = Items::from_slice(alloc, b"abc")?;
        let failing = Items::from_slice(alloc, failing)?;
        let read = read_five_times(alloc, &mut MemorySource::new(bytes, failing, most), room)?;
        assert_eq!(rt;
            read.answers.as_slice(),
            answers.as_slice(),
            "at most {most}"
        );
        assert_eq!(rt; read.bytes.as_slice(), b"abc".as_slice(), "at most {most}");
    }
    Ok(())
}

/// One line of the table of `MemorySink`: how the sink is made, what three writes and `finish` answer, and what is held.
#[derive(Clone, Copy)]
struct Writing<'a> {
    failing: &'a [u64],
    room: usize,
    answers: [Put; 3],
    finished: bool,
    held: &'a [u8],
}

#[test]
fn sinks_hold_what_they_took(rt: HostRuntime) -> Result<(), Fail> {
    let alloc = rt.alloc();
    let table = [
        Writing {
            failing: &[],
            room: 5,
            answers: [Put::Took(3), Put::Took(2), Put::Failed],
            finished: true,
            held: b"abcab",
        },
        Writing {
            failing: &[4, 2],
            room: 9,
            answers: [Put::Took(3), Put::Failed, Put::Took(3)],
            finished: false,
            held: b"abcabc",
        },
        Writing {
            failing: &[1],
            room: 1,
            answers: [Put::Failed, Put::Took(1), Put::Failed],
            finished: true,
            held: b"a",
        },
        Writing {
            failing: &[],
            room: 0,
            answers: [Put::Failed, Put::Failed, Put::Failed],
            finished: true,
            held: b"",
        },
    ];
    for row in table {
        let Writing {
            failing,
            room,
            answers,
            finished,
            held,
        } = row;
        let failing = Items::from_slice(alloc, failing)?;
        let mut sink = MemorySink::new(alloc, failing, room)?;
        let offered = write_three_times(alloc, &mut sink, b"abc")?;
        assert_eq!(rt;
            offered.answers.as_slice(),
            answers.as_slice(),
            "with room for {room}"
        );
        assert_eq!(rt; offered.finished, finished, "with room for {room}");
        assert_eq!(rt; sink.held(), held, "with room for {room}");
    }
    Ok(())
}

#[test]
fn a_sink_tells_that_finish_was_last(rt: HostRuntime) -> Result<(), Fail> {
    let alloc = rt.alloc();
    let failing = Items::from_slice(alloc, &[2])?;
    let mut sink = MemorySink::new(alloc, failing, 2)?;
    assert!(rt; !sink.is_finished(), "before any call");
    for (written, finished) in [
        (Put::Took(1), false),
        (Put::Took(1), true),
        (Put::Failed, true),
    ] {
        assert_eq!(rt; sink.write(b"a"), written);
        assert!(rt; !sink.is_finished(), "after a write");
        assert_eq!(rt; sink.finish(), finished);
        assert!(rt; sink.is_finished(), "after finish, whatever it answered");
    }
    Ok(())
}

#[test]
fn a_reader_is_a_source(rt: HostRuntime) -> Result<(), Fail> {
    let alloc = rt.alloc();
    let whole = read_five_times(alloc, &mut ReadSource::new(b"abc".as_slice()), 2)?;
    let answers = [Got::Bytes(2), Got::Bytes(1), Got::End, Got::End, Got::End];
    assert_eq!(rt; whole.answers.as_slice(), answers.as_slice());
    assert_eq!(rt; whole.bytes.as_slice(), b"abc".as_slice());
    let reader = b"ab".as_slice().chain(Broken);
    let cut = read_five_times(alloc, &mut ReadSource::new(reader), 8)?;
    let answers = [
        Got::Bytes(2),
        Got::Failed,
        Got::Failed,
        Got::Failed,
        Got::Failed,
    ];
    assert_eq!(rt; cut.answers.as_slice(), answers.as_slice());
    assert_eq!(rt; cut.bytes.as_slice(), b"ab".as_slice());
    Ok(())
}

#[test]
fn a_writer_is_a_sink(rt: HostRuntime) -> Result<(), Fail> {
    let alloc = rt.alloc();
    let mut text = Vec::new(alloc);
    let whole = write_three_times(alloc, &mut WriteSink::new(&mut text), b"abc")?;
    let answers = [Put::Took(3), Put::Took(3), Put::Took(3)];
    assert_eq!(rt; whole.answers.as_slice(), answers.as_slice());
    assert!(rt; whole.finished);
    assert_eq!(rt; text.as_slice(), b"abcabcabc".as_slice());
    let mut page = [0u8; 4];
    let full = write_three_times(alloc, &mut WriteSink::new(page.as_mut_slice()), b"abc")?;
    let answers = [Put::Took(3), Put::Took(1), Put::Failed];
    assert_eq!(rt; full.answers.as_slice(), answers.as_slice());
    assert_eq!(rt; page.as_slice(), b"abca".as_slice());
    let broken = write_three_times(alloc, &mut WriteSink::new(Broken), b"abc")?;
    let answers = [Put::Failed, Put::Failed, Put::Failed];
    assert_eq!(rt; broken.answers.as_slice(), answers.as_slice());
    assert!(rt; !broken.finished);
    Ok(())
}
