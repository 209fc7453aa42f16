//! That each public call succeeds where memory is ample, and what a fault in mid-stream answers,
//! at that call and at the next.
use super::{MemSink, MemSource, ReadErr, StdSink, StdSource, WriteErr, read_all, write_all};
use std::test::Fail;

#[test]
fn reads_all_in_pieces(rt: HostRuntime) -> Result<(), Fail> {
    let alloc = rt.alloc();
    let mut source = MemSource::new(b"theorem".to_vec(alloc)?, 3, Vec::new(alloc));
    let bytes = read_all(alloc, &mut source, 7)?;
    assert_eq!(rt; bytes.as_slice(), b"theorem".as_slice());
    let mut longer = MemSource::new(b"theorem".to_vec(alloc)?, 3, Vec::new(alloc));
    assert_eq!(rt;
        read_all(alloc, &mut longer, 6).err(),
        Some(ReadErr::TooLong)
    );
    Ok(())
}

#[test]
fn read_fault_loses_what_came(rt: HostRuntime) -> Result<(), Fail> {
    let alloc = rt.alloc();
    let mut source = MemSource::new(b"theorem".to_vec(alloc)?, 3, vec![in alloc; 2]?);
    assert_eq!(rt; read_all(alloc, &mut source, 7).err(), Some(ReadErr::Fault));
    let rest = read_all(alloc, &mut source, 7)?;
    assert_eq!(rt; rest.as_slice(), b"orem".as_slice());
    Ok(())
}

#[test]
fn writes_all_in_pieces(rt: HostRuntime) -> Result<(), Fail> {
    let alloc = rt.alloc();
    let mut sink = MemSink::new(alloc, 7, 3, Vec::new(alloc))?;
    write_all(&mut sink, b"theorem")?;
    assert_eq!(rt; sink.bytes(), b"theorem".as_slice());
    assert_eq!(rt;
        write_all(&mut sink, b"s"),
        Err(WriteErr::Fault { written: 0 })
    );
    Ok(())
}

#[test]
fn write_fault_tells_how_much(rt: HostRuntime) -> Result<(), Fail> {
    let alloc = rt.alloc();
    let mut sink = MemSink::new(alloc, 9, 3, vec![in alloc; 2]?)?;
    assert_eq!(rt;
        write_all(&mut sink, b"theorem"),
        Err(WriteErr::Fault { written: 3 })
    );
    assert_eq!(rt;
        write_all(&mut sink, b"theorem"),
        Err(WriteErr::Fault { written: 6 })
    );
    assert_eq!(rt; sink.bytes(), b"thetheore".as_slice());
    Ok(())
}

#[test]
fn std_ends_pass_bytes_through(rt: HostRuntime) -> Result<(), Fail> {
    let alloc = rt.alloc();
    let mut source = StdSource::new(b"theorem".as_slice());
    let bytes = read_all(alloc, &mut source, 7)?;
    assert_eq!(rt; bytes.as_slice(), b"theorem".as_slice());
    let mut room = [0; 3];
    let mut sink = StdSink::new(room.as_mut_slice());
    assert_eq!(rt;
        write_all(&mut sink, b"theorem"),
        Err(WriteErr::Fault { written: 3 })
    );
    Ok(())
}

#[test]
fn errors_read_as_text(rt: HostRuntime) -> Result<(), Fail> {
    let alloc = rt.alloc();
    let text = format!(in alloc; "{}", WriteErr::Fault { written: 3 })?;
    assert_eq!(rt; text.as_str(), "writing failed after 3 bytes");
    Ok(())
}
