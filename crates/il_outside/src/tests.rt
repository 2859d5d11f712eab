use super::{
    DiskFolder, FailAt, Failed, Folder, FolderError, MemFolder, MemSink, MemSource, NamedFile,
    Sink, SinkError, Source, StdSink, StdSource, write_all,
};
use il_base::{NoMemory, Seq, Text};
use std::alloc::Global;
use std::fs;
use std::test::Fail;

fn one_file(alloc: Global) -> Result<Seq<NamedFile>, FolderError> {
    let mut files = Seq::new(alloc);
    files.push(NamedFile {
        name: Text::from_slice(alloc, b"app.exe")?,
        bytes: Text::from_slice(alloc, b"MZ-and-more")?,
    })?;
    Ok(files)
}

fn copied<F: Folder>(
    folder: &mut F,
    alloc: Global,
    from: &str,
    to: &str,
) -> Result<usize, FolderError> {
    let bytes = folder.read(alloc, from)?;
    folder.write(to, bytes.as_slice())?;
    Ok(bytes.len())
}

#[test]
fn honest_folder(rt: HostRuntime) -> Result<(), Fail> {
    let alloc = rt.alloc();
    let mut folder = MemFolder::honest(one_file(alloc)?);
    assert_eq!(rt; copied(&mut folder, alloc, "app.exe", "o.exe"), Ok(11));
    assert_eq!(rt; copied(&mut folder, alloc, "o.exe", "app.exe"), Ok(11));
    let missing = copied(&mut folder, alloc, "lib.dll", "o.exe");
    assert_eq!(rt; missing, Err(FolderError::Failed));
    Ok(())
}

#[test]
fn failing_calls_of_a_folder(rt: HostRuntime) -> Result<(), Fail> {
    let alloc = rt.alloc();
    let mut fails = Seq::new(alloc);
    fails.push(FailAt { call: 1, kept: 3 })?;
    fails.push(FailAt { call: 2, kept: 0 })?;
    let mut folder = MemFolder::new(one_file(alloc)?, fails);
    for want in [Err(FolderError::Failed), Err(FolderError::Failed), Ok(11)] {
        assert_eq!(rt; copied(&mut folder, alloc, "app.exe", "o.exe"), want);
    }
    assert_eq!(rt; folder.write("p.exe", b"whole"), Ok(()));
    let text = folder.read(alloc, "o.exe")?;
    assert_eq!(rt; text.as_slice(), b"MZ-and-more".as_slice());
    Ok(())
}

fn read_some<S: Source>(source: &mut S, buf: &mut [u8]) -> Result<usize, Failed> {
    source.read(buf)
}

#[test]
fn sources(rt: HostRuntime) -> Result<(), Fail> {
    let alloc = rt.alloc();
    let mut source = MemSource::new(Text::from_slice(alloc, b"abcde")?, one_call(alloc, 1)?);
    let mut buf = [0u8; 3];
    assert_eq!(rt; read_some(&mut source, &mut []), Ok(0));
    for (want, front) in [
        (Ok(3), b"abc"),
        (Err(Failed), b"abc"),
        (Ok(2), b"dec"),
        (Ok(0), b"dec"),
    ] {
        assert_eq!(rt; read_some(&mut source, &mut buf), want);
        assert_eq!(rt; buf, *front);
    }
    assert_eq!(rt;
        read_some(&mut StdSource::new(b"xy".as_slice()), &mut buf),
        Ok(2)
    );
    assert_eq!(rt; buf, *b"xyc");
    Ok(())
}

fn one_call(alloc: Global, call: u32) -> Result<Seq<u32>, NoMemory> {
    Seq::from_slice(alloc, &[call])
}

fn put<S: Sink>(sink: &mut S, text: &str) -> Result<(), SinkError> {
    write_all(sink, text.as_bytes())
}

#[test]
fn sinks(rt: HostRuntime) -> Result<(), Fail> {
    let mut sink = MemSink::new(one_call(rt.alloc(), 1)?);
    assert_eq!(rt; put(&mut sink, ""), Ok(()));
    for want in [Ok(()), Err(SinkError::Failed), Ok(())] {
        assert_eq!(rt; put(&mut sink, "ab"), want);
    }
    assert_eq!(rt; sink.held(), b"abab".as_slice());
    assert_eq!(rt; put(&mut StdSink::new(rt.stdout()), "out\n"), Ok(()));
    assert_eq!(rt; put(&mut StdSink::new(rt.stderr()), "err\n"), Ok(()));
    Ok(())
}

#[test]
fn disk(rt: HostRuntime) -> Result<(), Fail> {
    let alloc = rt.alloc();
    let mut folder = DiskFolder::new(alloc, &rt);
    let name = "il_outside-disk.bin";
    assert_eq!(rt; folder.write(name, b"on disk"), Ok(()));
    assert_eq!(rt; copied(&mut folder, alloc, name, name), Ok(7));
    let text = folder.read(alloc, name)?;
    assert_eq!(rt; text.as_slice(), b"on disk".as_slice());
    fs::remove_file(&rt, name)?;
    let gone = copied(&mut folder, alloc, name, name);
    assert_eq!(rt; gone, Err(FolderError::Failed));
    Ok(())
}
