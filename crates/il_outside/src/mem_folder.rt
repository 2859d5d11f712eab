ghost use Rattle.std.specs.Prelude.{◌≡◌, ◌<◌, [], None, OnOk, OnErr, IfOk, IfSome, length, take, position, is_some, if◌then◌else◌};
ghost use Rattle.std.specs.Option.{option_map};
ghost use Rattle.il_outside.specs.Faults.{Rose, raised};
ghost use Rattle.il_outside.specs.Folder.{KeepsFiles, Tells, WritesFile, ReadFaults, WriteFaults};
ghost use Rattle.il_outside.specs.Memory.{is_named, file_in, put_file, fails_at, mem_read, mem_folder_state, AnswersRead, AnswersWrite};

use crate::folder::{Folder, FolderError};
use il_base::{NoMemory, Seq, Text};
use std::alloc::Global;

/// A file: its name in UTF-8, and what it holds.
#[derive(Drop)]
pub struct NamedFile {
    pub name: Text,
    pub bytes: Text,
}

/// A call that fails.
#[derive(Clone, Copy, Debug, PartialEq, Eq)]
pub struct FailAt {
    /// The number of the call, counted from 0 over reads and writes.
    pub call: u32,
    /// How many bytes it leaves under its name if it is a write.
    pub kept: u32,
}

/// A folder in memory, which tells what it holds.
#[derive(Drop)]
pub struct MemFolder {
    files: Vec<NamedFile>,
    fails: Vec<FailAt>,
    calls: u64,
    read_faults: u64,
    write_faults: u64,
    failed: Option<Text>,
}

impl MemFolder {
    /// A folder of these files whose listed calls fail. Of two files of one name the first counts.
    pub fn new(files: Seq<NamedFile>, fails: Seq<FailAt>) -> MemFolder
        ensures files { result.files.items ≡ files }
        ensures fails { result.fails.items ≡ fails }
        ensures calls { result.calls ≡ 0 }
        ensures reads { result.read_faults ≡ 0 }
        ensures writes { result.write_faults ≡ 0 }
        ensures failed { result.failed ≡ None }
    {
        MemFolder {
            files: files.into_vec(),
            fails: fails.into_vec(),
            calls: 0,
            read_faults: 0,
            write_faults: 0,
            failed: None,
        }
    }

    /// A folder of these files of whose calls none is made to fail.
    pub fn honest(files: Seq<NamedFile>) -> MemFolder
        ensures files { result.files.items ≡ files }
        ensures fails { result.fails.items ≡ [] }
        ensures calls { result.calls ≡ 0 }
        ensures reads { result.read_faults ≡ 0 }
        ensures writes { result.write_faults ≡ 0 }
        ensures failed { result.failed ≡ None }
    {
        let files = files.into_vec();
        let fails = Seq::new(*files.allocator());
        MemFolder::new(Seq::from_vec(files), fails)
    }
}

impl Folder for MemFolder {
    ghost state = { mem_folder_state };

    fn read(&mut self, alloc: Global, name: &str) -> Result<Text, FolderError>
        ensures files { KeepsFiles (mem_folder_state self.old).files (mem_folder_state self.new).files }
        ensures bytes { IfOk result (λ bytes. Tells (mem_folder_state self.old).files name.now bytes) }
        ensures faults { ReadFaults (mem_folder_state self.old) (mem_folder_state self.new) name.now result }
        ensures answer { AnswersRead (mem_read self.old.files.items self.old.fails.items self.old.calls name.now) result }
        ensures calls { self.new.calls ≡ raised self.old.calls }
        ensures fails { self.new.fails.items ≡ self.old.fails.items }
    {
        let kept = self.next_call();
        match found(self.files.as_slice(), kept, name.as_bytes()) {
            Some(bytes) => {
                let copy = Text::from_slice(alloc, bytes)?;
                Ok(copy)
            }
            None => {
                let copy = Text::from_slice(alloc, name.as_bytes())?;
                self.fail_read(copy);
                Err(FolderError::Failed)
            }
        }
    }

    fn write(&mut self, name: &str, bytes: &[u8]) -> Result<(), FolderError>
        ensures files { WritesFile (mem_folder_state self.old).files (mem_folder_state self.new).files name.now bytes.now result }
        ensures faults { WriteFaults (mem_folder_state self.old) (mem_folder_state self.new) name.now result }
        ensures answer { AnswersWrite self.old.files.items self.new.files.items (fails_at self.old.fails.items self.old.calls) name.now bytes.now result }
        ensures calls { self.new.calls ≡ raised self.old.calls }
        ensures fails { self.new.fails.items ≡ self.old.fails.items }
    {
        match self.next_call() {
            None => {
                put(&mut self.files, name.as_bytes(), bytes)?;
                Ok(())
            }
            Some(kept) => {
                let copy = Text::from_slice(*self.files.allocator(), name.as_bytes())?;
                put(
                    &mut self.files,
                    name.as_bytes(),
                    front(bytes, kept as usize),
                )?;
                self.fail_write(copy);
                Err(FolderError::Failed)
            }
        }
    }
}

impl MemFolder {
    // Counts a call, and says how many bytes it leaves if it is to fail.
    fn next_call(&mut self) -> Option<u32>
        ensures value { result ≡ fails_at self.old.fails.items self.old.calls }
        ensures calls { self.new.calls ≡ raised self.old.calls }
        ensures files { self.new.files ≡ self.old.files }
        ensures fails { self.new.fails ≡ self.old.fails }
        ensures reads { self.new.read_faults ≡ self.old.read_faults }
        ensures writes { self.new.write_faults ≡ self.old.write_faults }
        ensures failed { self.new.failed ≡ self.old.failed }
    {
        let call = self.calls;
        self.calls = call.saturating_add(1);
        kept_at(self.fails.as_slice(), call)
    }

    fn fail_read(&mut self, name: Text)
        ensures folder { self.new ≡ record self.old { read_faults = self.new.read_faults; failed = Some name } }
        ensures rose { Rose self.old.read_faults self.new.read_faults }
    {
        self.read_faults = self.read_faults.saturating_add(1);
        self.failed = Some(name);
    }

    fn fail_write(&mut self, name: Text)
        ensures folder { self.new ≡ record self.old { write_faults = self.new.write_faults; failed = Some name } }
        ensures rose { Rose self.old.write_faults self.new.write_faults }
    {
        self.write_faults = self.write_faults.saturating_add(1);
        self.failed = Some(name);
    }
}

fn kept_at(fails: &[FailAt], call: u64) -> Option<u32>
    ensures { result ≡ fails_at fails.now call }
{
    let fail = fails.iter().find(|fail| u64::from(fail.call) == call)?;
    Some(fail.kept)
}

// What a read gives, None where it fails: it is made to fail, or there is no such file.
fn found<'a>(files: &'a [NamedFile], kept: Option<u32>, name: &[u8]) -> Option<&'a [u8]>
    ensures { option_map (λ b. b.now) result ≡ (if is_some kept then None else file_in files.now name.now) }
{
    if kept.is_some() {
        return None;
    }
    file_named(files, name)
}

fn file_named<'a>(files: &'a [NamedFile], name: &[u8]) -> Option<&'a [u8]>
    ensures { option_map (λ b. b.now) result ≡ file_in files.now name.now }
{
    match files.iter().find(|file| file.name.as_slice() == name) {
        Some(file) => Some(file.bytes.as_slice()),
        None => None,
    }
}

fn front(bytes: &[u8], n: usize) -> &[u8]
    ensures { result.now ≡ take n bytes.now }
{
    if n < bytes.len() { &bytes[..n] } else { bytes }
}

// Puts the bytes under the name, in the place of the first file of the name or after the others.
fn put(files: &mut Vec<NamedFile>, name: &[u8], bytes: &[u8]) -> Result<(), NoMemory>
    ensures ok { OnOk result (files.new.items ≡ put_file files.old.items name.now bytes.now) }
    ensures err { OnErr result (files.new.items ≡ files.old.items) }
{
    let alloc = *files.allocator();
    let file = NamedFile {
        name: Text::from_slice(alloc, name)?,
        bytes: Text::from_slice(alloc, bytes)?,
    };
    match index_of(files.as_slice(), name) {
        Some(i) => files[i] = file,
        None => files.push(file)?,
    }
    Ok(())
}

fn index_of(files: &[NamedFile], name: &[u8]) -> Option<usize>
    ensures place { result ≡ position (is_named name.now) files.now }
    ensures within { IfSome result (λ i. i < length files.now) }
{
    files.iter().position(|file| file.name.as_slice() == name)
}
