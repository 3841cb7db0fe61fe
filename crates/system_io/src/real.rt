// The outside: files of the system, and sinks over standard output and standard error.
ghost use Rattle.std.specs.Prelude.{◌≡◌, ◌≢◌, ◌↔◌, ◌≤◌, ◌<◌, ℕ, List, length, Option, Result, IfOk, IfErr, IfSome, IsSomeAnd, IsErrOf, MatchOption, None, Some, refl};
ghost use Rattle.std.specs.Option.{is_some};
ghost use Rattle.std.specs.IoError.{error_kind};
ghost use Rattle.std.specs.declared.io.Error.{Error};
ghost use Rattle.source_trait.specs.Causes.{Rose};
ghost use Rattle.source_trait.specs.Outside.{bytes_of};
ghost use Rattle.system_io.specs.Heads.{head_of};
ghost use Rattle.system_io.specs.Opened.{IsOpenFault, IsOfOpening};

use lists::{Bytes, Text};
use source_trait::{FileFault, Files, Sink, SinkFault};
use std::alloc::Global;
use std::io::{ErrorKind, Read, Stderr, Stdout, Write};
use std::{fs, io};

/// Standard output.
pub type RealOut = RealSink<Stdout>;

/// Standard error.
pub type RealErr = RealSink<Stderr>;

/// What opens files by their names.
pub trait Opens {
    type File: Read + Drop;

    /// The names and their bytes, where they are told.
    ghost contents: { Self → Option (List (List ℕ × List ℕ)) };

    /// What opening a file of a name may answer.
    ghost answers: { Self → List ℕ → Result Self.File Error → Type 0 };

    /// Opens the file of a name, at its first byte.
    fn open(&self, name: &str) -> io::Result<Self::File>
        ensures answers { answers self.now name.now result }
        ensures opened { IfOk result (λ file. IfSome (contents self.now) (λ files. IsSomeAnd (bytes_of files name.now) (λ bytes. Self.File.remaining file ≡ Some bytes))) }
        ensures missing { IfErr result (λ fault. error_kind fault ≡ ErrorKind.NotFound → IfSome (contents self.now) (λ files. bytes_of files name.now ≡ None)) };
}

/// The files of the system, by their paths.
#[derive(Drop)]
pub struct System<R> {
    rt: R,
}

impl<R> System<R> {
    /// The files of the system by this value, which stands for permission to open them. Takes no memory.
    pub fn new(rt: R) -> System<R> {
        System { rt }
    }
}

impl<R: std::rt::Files> Opens for System<R> {
    type File = R::File;

    ghost contents = { λ s. None };

    ghost answers = { λ s name answer. Unit {0} };

    fn open(&self, name: &str) -> io::Result<R::File> {
        fs::open(&self.rt, name)
    }
}

/// Files that are opened by their names, and a count of the reads that failed.
#[derive(Drop)]
pub struct RealFiles<O> {
    opener: O,
    failures: u64,
}

impl<O: Opens> RealFiles<O> {
    /// Files by this opener, of which no read has failed. Takes no memory.
    pub fn new(opener: O) -> RealFiles<O>
        ensures opener { result.opener ≡ opener }
        ensures failures { result.failures ≡ 0 }
    {
        RealFiles {
            opener,
            failures: 0,
        }
    }
}

impl<O: Opens + Drop> Files for RealFiles<O> {
    ghost contents = { λ f. O.contents f.opener };

    ghost faults = { λ f. f.failures };

    fn read(&mut self, alloc: Global, name: &Text, limit: u64) -> Result<Bytes, FileFault>
        ensures size { IfOk result (λ bytes. length bytes ≤ limit) }
        ensures bytes { IfOk result (λ bytes. IfSome (O.contents self.old.opener) (λ files. bytes_of files name.now ≡ Some bytes)) }
        ensures missing { IsErrOf result FileFault.Missing
            → MatchOption (O.contents self.old.opener) (Rose self.old.failures self.new.failures) (λ files. bytes_of files name.now ≡ None) }
        ensures too_large { IsErrOf result FileFault.TooLarge
            → MatchOption (O.contents self.old.opener) (Rose self.old.failures self.new.failures) (λ files. IsSomeAnd (bytes_of files name.now) (λ bytes. limit < length bytes)) }
        ensures failed { IsErrOf result FileFault.Failed → Rose self.old.failures self.new.failures }
        ensures later { self.old.failures ≤ self.new.failures }
        ensures same { O.contents self.new.opener ≡ O.contents self.old.opener }
        ensures opening { (answer : Result O.File Error) × O.answers self.old.opener name.now answer × IsOfOpening answer result }
    {
        match read_named(alloc, &self.opener, name, limit) {
            Ok(bytes) => Ok(bytes),
            Err(FileFault::NoMemory) => Err(FileFault::NoMemory),
            Err(fault) => {
                self.failures = self.failures.saturating_add(1);
                Err(fault)
            }
        }
    }
}

// The bytes of a file, where there are at most `limit`.
fn read_named<O: Opens>(
    alloc: Global,
    opener: &O,
    name: &Text,
    limit: u64,
) -> Result<Bytes, FileFault>
    ensures within { IfOk result (λ bytes. length bytes ≤ limit) }
    ensures bytes { IfOk result (λ bytes. IfSome (O.contents opener.now) (λ files. bytes_of files name.now ≡ Some bytes)) }
    ensures missing { IsErrOf result FileFault.Missing → IfSome (O.contents opener.now) (λ files. bytes_of files name.now ≡ None) }
    ensures too_large { IsErrOf result FileFault.TooLarge → IfSome (O.contents opener.now) (λ files. IsSomeAnd (bytes_of files name.now) (λ bytes. limit < length bytes)) }
    ensures opening { (answer : Result O.File Error) × O.answers opener.now name.now answer × IsOfOpening answer result }
{
    match opener.open(name.as_str()) {
        Ok(file) => {
            let mut file = file;
            read_up_to(alloc, &mut file, limit)
        }
        Err(fault) => Err(open_fault(&fault)),
    }
}

// All bytes that a reader has left, where there are at most `limit`.
fn read_up_to<T: Read>(alloc: Global, reader: &mut T, limit: u64) -> Result<Bytes, FileFault>
    ensures within { IfOk result (λ bytes. length bytes ≤ limit) }
    ensures bytes { IfOk result (λ bytes. IfSome (T.remaining reader.old) (λ left. bytes ≡ left)) }
    ensures too_large { IsErrOf result FileFault.TooLarge → IfSome (T.remaining reader.old) (λ left. limit < length left) }
    ensures there { IsErrOf result FileFault.Missing → ⊥ }
{
    let bytes = read_head(alloc, reader, limit.checked_add(1))?;
    if bytes.len() as u64 > limit {
        return Err(FileFault::TooLarge);
    }
    Ok(Bytes::from_vec(bytes))
}

// The first so many bytes that a reader has left, or all where there is no such number.
fn read_head<T: Read>(
    alloc: Global,
    reader: &mut T,
    most: Option<u64>,
) -> Result<Vec<u8>, FileFault>
    ensures bytes { IfOk result (λ bytes. IfSome (T.remaining reader.old) (λ left. bytes.items ≡ head_of most left)) }
    ensures there { IsErrOf result FileFault.Missing → ⊥ }
    ensures whole { IsErrOf result FileFault.TooLarge → ⊥ }
{
    let mut bytes = Vec::new(alloc);
    let read = match most {
        Some(most) => reader.take(most).read_to_end(&mut bytes),
        None => reader.read_to_end(&mut bytes),
    };
    match read {
        Ok(_) => Ok(bytes),
        Err(fault) => Err(read_fault(&fault)),
    }
}

// A file that was opened is there, whatever its reader says.
fn read_fault(fault: &io::Error) -> FileFault
    ensures memory { (result ≡ FileFault.NoMemory) ↔ (error_kind fault.now ≡ ErrorKind.OutOfMemory) }
    ensures there { result ≢ FileFault.Missing }
    ensures whole { result ≢ FileFault.TooLarge }
{
    match fault.kind() {
        ErrorKind::OutOfMemory => FileFault::NoMemory,
        _ => FileFault::Failed,
    }
}

// Missing is said where no such file is there, and of nothing else.
fn open_fault(fault: &io::Error) -> FileFault
    ensures { IsOpenFault (error_kind fault.now) result }
{
    match fault.kind() {
        ErrorKind::NotFound => FileFault::Missing,
        ErrorKind::OutOfMemory => FileFault::NoMemory,
        _ => FileFault::Failed,
    }
}

/// A writer whose bytes a contract knows always, or never.
pub trait Tells: Write {
    ghost alike: { (one other : Self) → is_some (Self.contents one) ≡ is_some (Self.contents other) };
}

impl Tells for Stdout {
    ghost alike = { λ one other. refl };
}

impl Tells for Stderr {
    ghost alike = { λ one other. refl };
}

/// A sink over a writer, and a count of the writes that failed.
#[derive(Drop)]
pub struct RealSink<W> {
    writer: W,
    failures: u64,
}

impl<W: Tells + Drop> RealSink<W> {
    /// A sink over this writer, of which no write has failed. Takes no memory.
    pub fn new(writer: W) -> RealSink<W>
        ensures writer { result.writer ≡ writer }
        ensures failures { result.failures ≡ 0 }
    {
        RealSink {
            writer,
            failures: 0,
        }
    }
}

impl<W: Tells + Drop> Sink for RealSink<W> {
    ghost taken = { λ s. W.contents s.writer };

    ghost faults = { λ s. s.failures };

    fn write(&mut self, piece: &[u8]) -> Result<usize, SinkFault> {
        if piece.is_empty() {
            return Ok(0);
        }
        match self.writer.write(piece) {
            Ok(count) if count > 0 => Ok(count),
            _ => {
                self.failures = self.failures.saturating_add(1);
                Err(SinkFault::Failed)
            }
        }
    }
}

#[cfg(test)]
mod tests {
    use super::*;

    #[test]
    fn a_file_is_read_up_to_the_limit(rt: HostRuntime) {
        let alloc = rt.alloc();
        fs::write(&rt, "five", "a,b\n1").expect(&rt, "a file is made");
        fs::create_dir(&rt, "folder").expect(&rt, "a folder is made");
        let mut files = RealFiles::new(System::new(rt));
        for (name, limit, wanted) in [
            ("five", 5, Ok(5)),
            ("five", 6, Ok(5)),
            ("five", u64::MAX, Ok(5)),
            ("five", 4, Err(FileFault::TooLarge)),
            ("five", 0, Err(FileFault::TooLarge)),
            ("none", 5, Err(FileFault::Missing)),
            ("none/five", 5, Err(FileFault::Missing)),
            ("five/none", 5, Err(FileFault::Failed)),
            ("folder", 5, Err(FileFault::Failed)),
        ] {
            let name_text = Text::from_str(alloc, name).expect(&rt, "a name is made");
            let before = files.failures;
            let got = files.read(alloc, &name_text, limit);
            let told = got.is_err() as u64;
            assert_eq!(rt;
                files.failures,
                before.saturating_add(told),
                "{name} at {limit}"
            );
            assert_eq!(rt; got.map(|bytes| bytes.len()), wanted, "{name} at {limit}");
        }
    }

    #[test]
    fn standard_output_takes_a_piece(rt: HostRuntime) {
        let mut out = RealOut::new(rt.stdout());
        assert_eq!(rt; out.write(b""), Ok(0));
        assert_eq!(rt; out.write(b"out\n"), Ok(4));
        assert_eq!(rt; out.failures, 0);
    }

    #[test]
    fn standard_error_takes_a_piece(rt: HostRuntime) {
        let mut err = RealErr::new(rt.stderr());
        assert_eq!(rt; err.write(b""), Ok(0));
        assert_eq!(rt; err.write(b"err\n"), Ok(4));
        assert_eq!(rt; err.failures, 0);
    }

    impl Tells for &mut [u8] {
        ghost alike = { λ one other. refl };
    }

    #[test]
    fn a_writer_that_takes_nothing_has_failed(rt: HostRuntime) {
        let mut room = [0u8; 3];
        let mut sink = RealSink::new(&mut room[..]);
        assert_eq!(rt; sink.write(b"abcd"), Ok(3));
        assert_eq!(rt; sink.write(b"d"), Err(SinkFault::Failed));
        assert_eq!(rt; sink.write(b""), Ok(0));
        assert_eq!(rt; sink.failures, 1);
    }
}
