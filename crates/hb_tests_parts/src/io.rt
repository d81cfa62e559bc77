//! Bytes in and out, texts and names.

use hb_io::{
    Bytes, Failed, Got, Name, ReadAll, Sink, SinkMemory, Source, SourceMemory, StdSink, StdSource,
    Text, Texts, WriteAll, name, read_all, write_all,
};
use std::io;
use std::io::{ErrorKind, Read, Write};
use std::test::Fail;

#[test]
fn reads_to_the_end(rt: HostRuntime) -> Result<(), Fail> {
    let alloc = rt.alloc();
    let all = Bytes::from_vec(b"abcde".to_vec(alloc)?);
    let none = Vec::new(alloc);
    let second = vec![in alloc; 2]?;
    let cases = [
        (second, 5, Err(ReadAll::Fault), 1),
        (none.clone()?, 5, Ok(all), 0),
        (none, 4, Err(ReadAll::TooLong), 0),
    ];
    for (fails, limit, want, faults) in cases {
        let mut source = SourceMemory::new(b"abcde".to_vec(alloc)?, 2, fails);
        assert_eq!(rt; read_all(alloc, &mut source, limit), want, "limit {limit}");
        assert_eq!(rt; source.faults(), faults, "limit {limit}");
    }
    Ok(())
}

#[test]
fn a_failed_read_uses_up_nothing(rt: HostRuntime) -> Result<(), Fail> {
    let alloc = rt.alloc();
    let mut source = SourceMemory::new(b"abcde".to_vec(alloc)?, 2, vec![in alloc; 2, 3]?);
    let mut buf = [0; 4];
    for want in [Ok(2), Err(Failed), Err(Failed), Ok(2), Ok(1), Ok(0)] {
        assert_eq!(rt; source.read(&mut buf), want);
    }
    assert_eq!(rt; buf, *b"ed\0\0");
    Ok(())
}

#[test]
fn writes_all_or_says_how_much(rt: HostRuntime) -> Result<(), Fail> {
    let alloc = rt.alloc();
    let mut sink = SinkMemory::new(alloc, 3, vec![in alloc; 2]?);
    assert_eq!(rt;
        write_all(&mut sink, b"abcde"),
        Err(WriteAll { written: 3 })
    );
    assert_eq!(rt; sink.faults(), 1);
    assert_eq!(rt; write_all(&mut sink, b"defgh"), Ok(()));
    assert_eq!(rt; sink.into_vec().as_slice(), b"abcdefgh".as_slice());
    Ok(())
}

/// A reader and a writer whose second call fails. Its writes after that take nothing.
#[derive(Drop)]
struct Failing {
    calls: u8,
}

impl Read for Failing {
    fn read(&mut self, buf: &mut [u8]) -> io::Result<usize> {
        self.calls = self.calls.saturating_add(1);
        if self.calls == 2 {
            return Err(io::Error::from(ErrorKind::Other));
        }
        let Some(first) = buf.first_mut() else {
            return Ok(0);
        };
        *first = b'a';
        Ok(1)
    }
}

impl Write for Failing {
    fn write(&mut self, buf: &[u8]) -> io::Result<usize> {
        self.calls = self.calls.saturating_add(1);
        match self.calls {
            1 => Ok(buf.len().min(1)),
            2 => Err(io::Error::from(ErrorKind::Other)),
            _ => Ok(0),
        }
    }

    fn flush(&mut self) -> io::Result<()> {
        Ok(())
    }
}

#[test]
fn adapters_pass_bytes_and_count_errors(rt: HostRuntime) -> Result<(), Fail> {
    let alloc = rt.alloc();
    let mut source = StdSource::new(b"abcde".as_slice());
    let all = Bytes::from_vec(b"abcde".to_vec(alloc)?);
    assert_eq!(rt; read_all(alloc, &mut source, 5), Ok(all));
    assert_eq!(rt; source.faults(), 0);
    assert_eq!(rt; source.into_inner(), b"".as_slice());

    let mut sink = StdSink::new(Vec::new(alloc));
    assert_eq!(rt; write_all(&mut sink, b"abcde"), Ok(()));
    assert_eq!(rt; sink.faults(), 0);
    assert_eq!(rt; sink.into_inner().as_slice(), b"abcde".as_slice());

    let mut source = StdSource::new(Failing { calls: 0 });
    assert_eq!(rt; read_all(alloc, &mut source, 9), Err(ReadAll::Fault));
    assert_eq!(rt; source.faults(), 1);

    let mut sink = StdSink::new(Failing { calls: 0 });
    assert_eq!(rt;
        write_all(&mut sink, b"abcde"),
        Err(WriteAll { written: 1 })
    );
    assert_eq!(rt; sink.write(b"bcde"), Err(Failed));
    assert_eq!(rt; sink.write(b""), Ok(0));
    assert_eq!(rt; sink.faults(), 2);
    Ok(())
}

#[test]
fn spells_names(rt: HostRuntime) -> Result<(), Fail> {
    let alloc = rt.alloc();
    for text in ["Ann", "a", "abcdefghijklmnop", "A_b-9"] {
        let spelled = name(text);
        assert_eq!(rt; spelled.as_ref().map(Name::as_str), Some(text));
        assert_eq!(rt; spelled, name(text));
        if let Some(spelled) = spelled {
            assert_eq!(rt; format!(in alloc; "{spelled}")?.as_str(), text);
        }
    }
    for text in ["", "abcdefghijklmnopq", "a b", "ä", "a.b"] {
        assert_eq!(rt; name(text), None, "{text}");
    }
    assert!(rt; name("Ann") < name("Bob"));
    assert!(rt; name("Ann") != name("Anna"));
    Ok(())
}

#[test]
fn holds_texts(rt: HostRuntime) -> Result<(), Fail> {
    let alloc = rt.alloc();
    let mut texts = Texts::new(alloc);
    assert!(rt; texts.is_empty());
    texts.push(Text::copy_of(alloc, "Ann")?)?;
    texts.push(Text::from_string(String::from_str(alloc, "")?))?;
    assert_eq!(rt; texts.len(), 2);
    assert_eq!(rt; texts, texts.clone()?);
    let [ann, empty] = texts.as_slice() else {
        panic!(rt; "two texts");
    };
    assert_eq!(rt;
        (ann.as_str(), ann.len(), empty.is_empty()),
        ("Ann", 3, true)
    );
    assert_eq!(rt; ann.clone()?.into_string().as_str(), "Ann");
    assert!(rt; Got::Text(ann.clone()?) != Got::Idle);

    let mut bytes = Bytes::new(alloc);
    assert!(rt; bytes.is_empty());
    bytes.extend(b"ab")?;
    bytes.extend(b"c")?;
    assert_eq!(rt; bytes.len(), 3);
    assert_eq!(rt; bytes.into_vec().as_slice(), b"abc".as_slice());
    Ok(())
}
