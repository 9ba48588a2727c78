//! Inputs over files.
//!
//! A name's file is opened at its first read and stays open, so that all that is read of a name is of one file, also
//! if another takes its place under that name meanwhile. A read goes on where the last one ended, or goes to its place
//! first; so a pipe can be read once, in order. There is one count of faults, a `u64`, which each error raises, except running
//! out of memory.
//!
//! What a file holds no contract can say. `ByName` and `ReadSeek` say what a system may report, and the inputs are proved over
//! any. A read gives what stands at its place. It opens exactly the name given, and only if it isn't open. It goes to no place
//! where the last read ended, and passes on what one read of the reader gave. What is trusted is the calls of the system under
//! `SystemFiles` and `File`, which say nothing.

ghost use Rattle.std.specs.Prelude.{◌≡◌, ◌↔◌, ℕ, ◌+◌, ◌++◌, ◌≤◌, ◌<◌, List, [], Option, Some, None, option_map, length, slice_get, IfOk, IfSome, IsNone, OnOk};
ghost use Rattle.std.specs.String.{string_bytes};
ghost use Rattle.std.specs.Io.KnownBytes.{Keeps};
ghost use Rattle.std.specs.Io.Seek.{MovesTo};
ghost use Rattle.std.specs.IoError.{error_kind};
ghost use Rattle.std.specs.List.{position};
ghost use Rattle.std.specs.Option.{ForSome};
ghost use Rattle.fib_io.specs.Files.{AllOpen, AllStand, Call, calls_met, calls_of_read, GivesOctets, SeeksTo, has_name, IsOpen, IsOpened, KeepsOpen, open_under, OpensName, OpensOnce, ReadsForward, ReadsOnce, StandsAfter, way_to, with_name};
ghost use Rattle.fib_io.specs.Causes.{HasReadCause};
ghost use Rattle.fib_io.specs.Octets.{AreAt};
ghost use Rattle.fib_io.specs.Reads.{IsOneRead, Makes};
ghost use Rattle.fib_io.specs.declared.InFault.TheVariants.{NoMemory};

use crate::{InFault, Inputs, count_fault};
use std::alloc::{AllocError, AllocFailed, Global};
use std::fs::{self, File};
use std::io::{self, ErrorKind, Read, Seek, SeekFrom};
use std::rt::Files;

/// A reader that goes to any place. `calls` is what it was asked and did since it was opened, if the type says it.
pub trait ReadSeek: Read + Seek {
    ghost calls: { Self → Option (List Call) };

    /// Goes to a place, counted in octets from 0.
    fn go_to(&mut self, at: u64) -> io::Result<()>
        ensures moves { MovesTo (Self.stream_position self.old) (Self.stream_position self.new)
            at result }
        ensures same { Keeps (Self.stream_bytes self.old) (Self.stream_bytes self.new) }
        ensures met { SeeksTo at (calls self.old) (calls self.new) result };

    /// Reads once, from where it stands. If it says its octets and its place, these are the octets there, and it
    /// stands after them then.
    fn read_on(&mut self, buf: &mut [u8]) -> io::Result<usize>
        ensures most { IfOk result (λ n. n ≤ length buf.new) }
        ensures told { ReadsForward (Self.stream_bytes self.old) (Self.stream_position self.old)
            (Self.stream_position self.new) buf.new result }
        ensures same { ForSome (Self.stream_bytes self.old)
            (λ octets. Self.stream_bytes self.new ≡ Some octets) }
        ensures met { GivesOctets (calls self.old) (calls self.new) result };
}

impl ReadSeek for File {
    ghost calls = { λ _. None };

    fn go_to(&mut self, at: u64) -> io::Result<()> {
        self.seek(SeekFrom::Start(at))?;
        Ok(())
    }

    fn read_on(&mut self, buf: &mut [u8]) -> io::Result<usize> {
        self.read(buf)
    }
}

/// Octets that are opened by name. `content` is what each name holds, and `opened` the names that were to be opened up to now,
/// in their order, if the type says them.
pub trait ByName {
    type Reader: ReadSeek + Drop;

    ghost content: { Self → List ℕ → Option (List ℕ) };

    ghost opened: { Self → Option (List (List ℕ)) };

    /// A reader that stands at the beginning of what the name holds, and met no call.
    fn open(&mut self, name: &str) -> io::Result<Self::Reader>
        ensures reads { IfOk result (λ reader. IsOpened (content self.old name.now)
            (Self.Reader.stream_bytes reader) (Self.Reader.stream_position reader)) }
        ensures fresh { IfOk result (λ reader. IfSome (Self.Reader.calls reader)
            (λ met. met ≡ [])) }
        ensures opened { opened self.new ≡ with_name name.now (opened self.old) }
        ensures same { content self.new ≡ content self.old };
}

/// The files of a runtime. They say neither what they hold nor what was opened.
#[derive(Drop)]
pub struct SystemFiles<'r, R: Files<File = File>> {
    rt: &'r R,
}

impl<R: Files<File = File>> ByName for SystemFiles<'_, R> {
    type Reader = File;

    ghost content = { λ _ _. None };

    ghost opened = { λ _. None };

    fn open(&mut self, name: &str) -> io::Result<File> {
        fs::open(self.rt, name)
    }
}

impl From<io::Error> for InFault {
    fn from(error: io::Error) -> InFault
        ensures { result ≡ InFault.NoMemory ↔ error_kind error ≡ ErrorKind.OutOfMemory }
    {
        match error.kind() {
            ErrorKind::OutOfMemory => InFault::NoMemory,
            _ => InFault::Failed,
        }
    }
}

impl From<AllocError> for InFault {
    ghost from_gives = { λ _ e. e ≡ NoMemory };

    fn from(_e: AllocError) -> InFault {
        InFault::NoMemory
    }
}

impl<T: Drop> From<AllocFailed<T>> for InFault {
    ghost from_gives = { λ _ e. e ≡ NoMemory };

    fn from(_e: AllocFailed<T>) -> InFault {
        InFault::NoMemory
    }
}

/// An input that is open.
#[derive(Drop)]
struct OpenInput<R: ReadSeek + Drop> {
    name: String,
    reader: R,
    // where the reader stands, if that is known
    place: Option<u64>,
}

impl<R: ReadSeek + Drop> OpenInput<R> {
    /// Goes to a place, unless it stands there.
    fn go_to(&mut self, at: u64) -> io::Result<()>
        ensures name { self.new.name ≡ self.old.name }
        ensures reads { (content : Option (List ℕ))
            → IsOpen content (R.stream_bytes self.old.reader) (R.stream_position self.old.reader) self.old.place
            → IsOpen content (R.stream_bytes self.new.reader) (R.stream_position self.new.reader) self.new.place }
        ensures at { OnOk result (self.new.place ≡ Some at) }
        ensures stands { StandsAfter (R.calls self.old.reader) self.old.place
            → StandsAfter (R.calls self.new.reader) self.new.place }
        ensures met { StandsAfter (R.calls self.old.reader) self.old.place → OnOk result
            (R.calls self.new.reader
            ≡ option_map (λ met. met ++ way_to at met) (R.calls self.old.reader)) }
    {
        if self.place != Some(at) {
            self.reader.go_to(at)?;
            self.place = Some(at);
        }
        Ok(())
    }

    /// Reads once, from the place on.
    fn read_at(&mut self, at: u64, buf: &mut [u8]) -> io::Result<usize>
        ensures most { IfOk result (λ n. n ≤ length buf.new) }
        ensures name { self.new.name ≡ self.old.name }
        ensures reads { (content : Option (List ℕ))
            → IsOpen content (R.stream_bytes self.old.reader) (R.stream_position self.old.reader) self.old.place
            → IsOpen content (R.stream_bytes self.new.reader) (R.stream_position self.new.reader) self.new.place }
        ensures told { (octets : List ℕ)
            → IsOpen (Some octets) (R.stream_bytes self.old.reader) (R.stream_position self.old.reader) self.old.place
            → IfOk result (λ n. AreAt octets at buf.new n) }
        ensures stands { StandsAfter (R.calls self.old.reader) self.old.place
            → StandsAfter (R.calls self.new.reader) self.new.place }
        ensures met { StandsAfter (R.calls self.old.reader) self.old.place → IfOk result
            (λ n. R.calls self.new.reader ≡ option_map
            (λ met. met ++ calls_of_read at n met) (R.calls self.old.reader)) }
    {
        self.go_to(at)?;
        let n = self.reader.read_on(buf)?;
        self.place = at.checked_add(n as u64);
        Ok(n)
    }
}

/// The place of the input of this name, if it is open.
fn place_of<R: ReadSeek + Drop>(inputs: &[OpenInput<R>], name: &str) -> Option<usize>
    ensures { result ≡ position (has_name name.now) inputs.now }
{
    inputs.iter().position(|input| input.name.as_str() == name)
}

/// Files by name. A file that can't be opened, sought or read is a fault, an interrupted call too; if memory runs out for
/// it, ours or the system's, it is `NoMemory`. All names have one count of faults.
#[derive(Drop)]
pub struct FileInputs<N: ByName + Drop> {
    alloc: Global,
    files: N,
    // one for each name that was read
    inputs: Vec<OpenInput<N::Reader>>,
    faults: u64,
    ghost reading: { AllOpen (N.content files) N.Reader.stream_bytes N.Reader.stream_position inputs.items },
    ghost standing: { AllStand N.Reader.calls inputs.items },
}

impl<'r, R: Files<File = File>> FileInputs<SystemFiles<'r, R>> {
    /// Reads the files of this runtime. No file is opened before the first read of its name.
    pub fn new(alloc: Global, rt: &'r R) -> FileInputs<SystemFiles<'r, R>>
        ensures { ⟦<FileInputs<SystemFiles<'r, R>> as Inputs>⟧.faults result ≡ (λ _. 0) }
    {
        FileInputs::over(alloc, SystemFiles { rt })
    }
}

impl<N: ByName + Drop> FileInputs<N> {
    ghost use Rattle.fib_io.specs.FileInputs.{files_of, inputs_of};

    /// Reads what this system opens by name. Nothing is opened before the first read of its name.
    pub fn over(alloc: Global, files: N) -> FileInputs<N>
        ensures faults { ⟦<FileInputs<N> as Inputs>⟧.faults result ≡ (λ _. 0) }
        ensures files { files_of result ≡ files }
        ensures none { inputs_of result ≡ [] }
    {
        FileInputs {
            alloc,
            files,
            inputs: Vec::new(alloc),
            faults: 0,
        }
    }
}

/// Opens what the name holds.
fn open_input<N: ByName>(
    alloc: Global,
    files: &mut N,
    name: &str,
) -> Result<OpenInput<N::Reader>, InFault>
    ensures named { IfOk result (λ input. string_bytes input.name ≡ name.now) }
    ensures reads { IfOk result (λ input. IsOpen (N.content files.old name.now)
        (N.Reader.stream_bytes input.reader) (N.Reader.stream_position input.reader) input.place) }
    ensures fresh { IfOk result (λ input. IfSome (N.Reader.calls input.reader) (λ met. met ≡ [])) }
    ensures start { IfOk result (λ input. input.place ≡ Some 0) }
    ensures opened { OpensName name.now (N.opened files.old) (N.opened files.new) result }
    ensures same { N.content files.new ≡ N.content files.old }
{
    Ok(OpenInput {
        name: String::from_str(alloc, name)?,
        reader: files.open(name)?,
        place: Some(0),
    })
}

impl<N: ByName + Drop> FileInputs<N> {
    /// Opens the name, if it isn't open yet, and returns its place among the open inputs.
    fn open_named(&mut self, name: &str) -> Result<usize, InFault>
        ensures content { N.content self.new.files ≡ N.content self.old.files }
        ensures faults { self.new.faults ≡ self.old.faults }
        ensures named { IfOk result
            (λ i. position (has_name name.now) self.new.inputs.items ≡ Some i) }
        ensures opened { OpensOnce (open_under name.now self.old.inputs.items) name.now
            (N.opened self.old.files) (N.opened self.new.files) result }
        ensures met { calls_met N.Reader.calls (open_under name.now self.new.inputs.items)
            ≡ calls_met N.Reader.calls (open_under name.now self.old.inputs.items) }
        ensures kept { KeepsOpen name.now self.old.inputs.items self.new.inputs.items }
    {
        if let Some(i) = place_of(&self.inputs, name) {
            return Ok(i);
        }
        self.inputs.reserve(1)?;
        let input = open_input(self.alloc, &mut self.files, name)?;
        let i = self.inputs.len();
        self.inputs.push_reserved(input);
        Ok(i)
    }

    /// Reads once, from the place on, what stands under the name.
    fn read_named(&mut self, name: &str, at: u64, buf: &mut [u8]) -> Result<usize, InFault>
        ensures most { IfOk result (λ n. n ≤ length buf.new) }
        ensures told { IfOk result
            (λ n. IfSome (N.content self.old.files name.now) (λ octets. AreAt octets at buf.new n)) }
        ensures content { N.content self.new.files ≡ N.content self.old.files }
        ensures faults { self.new.faults ≡ self.old.faults }
        ensures opened { OpensOnce (open_under name.now self.old.inputs.items) name.now
            (N.opened self.old.files) (N.opened self.new.files) result }
        ensures once { IfOk result
            (λ n. ReadsOnce N.Reader.calls (open_under name.now self.old.inputs.items)
            (open_under name.now self.new.inputs.items) at n) }
        ensures kept { KeepsOpen name.now self.old.inputs.items self.new.inputs.items }
    {
        let i = self.open_named(name)?;
        Ok(self.inputs[i].read_at(at, buf)?)
    }
}

impl<N: ByName + Drop> Inputs for FileInputs<N> {
    ghost use Rattle.fib_io.specs.FileInputs.{files_of, inputs_of};

    ghost content = { λ s. N.content s.files };

    ghost faults = { λ s _. s.faults };

    ghost reads = { λ _. None };

    /// Opens the name unless it is open, goes to the place unless the last read ended there, and reads once. What the reader gave
    /// is passed on as it is.
    fn read(&mut self, name: &str, at: u64, buf: &mut [u8]) -> Result<usize, InFault>
        ensures most { IfOk result (λ n. n ≤ length buf.new) }
        ensures told { IfOk result
            (λ n. IfSome (⟦<FileInputs<N> as Inputs>⟧.content self.old name.now)
            (λ octets. AreAt octets at buf.new n)) }
        ensures same { ⟦<FileInputs<N> as Inputs>⟧.content self.new
            ≡ ⟦<FileInputs<N> as Inputs>⟧.content self.old }
        ensures cause { HasReadCause (⟦<FileInputs<N> as Inputs>⟧.faults self.old)
            (⟦<FileInputs<N> as Inputs>⟧.faults self.new) name.now result }
        ensures made { Makes (⟦<FileInputs<N> as Inputs>⟧.reads self.old)
            (⟦<FileInputs<N> as Inputs>⟧.reads self.new) (IsOneRead name.now at result) }
        ensures opened { OpensOnce (open_under name.now (inputs_of self.old)) name.now
            (N.opened (files_of self.old)) (N.opened (files_of self.new)) result }
        ensures once { IfOk result
            (λ n. ReadsOnce N.Reader.calls (open_under name.now (inputs_of self.old))
            (open_under name.now (inputs_of self.new)) at n) }
        ensures kept { KeepsOpen name.now (inputs_of self.old) (inputs_of self.new) }
    {
        let result = self.read_named(name, at, buf);
        if result == Err(InFault::Failed) {
            count_fault(&mut self.faults);
        }
        result
    }
}
