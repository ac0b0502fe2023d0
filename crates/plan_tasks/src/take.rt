//! Taking files from the shelf.
ghost use Rattle.std.specs.Prelude.{◌≡◌, ◌≤◌, ◌++◌, ◌∷◌, [], ℕ, List, IfOk};
ghost use Rattle.clap.specs.Walk.{texts};
ghost use Rattle.pl_io.specs.Outside.{Notes, Heard, Agrees};
ghost use Rattle.requests.specs.Among.{AreAmong};
ghost use Rattle.plan_tasks.specs.Limits.{file_in, most_of};
ghost use Rattle.plan_tasks.specs.Named.{names_of, bytes_of, third_name, third_bytes};
ghost use Rattle.plan_endings.specs.Ends.{StopsBy};
ghost use Rattle.plan_endings.specs.declared.ending.File.{File as FileValue};
ghost use Rattle.plan_endings.specs.declared.ending.Ending.{Ending as EndingValue};
ghost use Rattle.plan_tasks.specs.Files.{IsFault, IsWhole, IsWholeOrFront, Stops, StopsFrom, FaultsFrom, AreTaken, AreTakenOrLong, Rises, NotesAmong};

use containers::limits::{CERTIFICATE_BYTES, MOST_BYTES};
use pl_io::{Bytes, Shelf, TakeError, Taken};
use plan_endings::stop::Stop;
use plan_endings::{Ending, File};
use std::alloc::Global;

/// What is kept of a file that a request names: its bytes; or, where it has more than it may have, nothing.
pub trait Kept: Sized + Drop {
    /// This is kept of the file of a name, of which that was handed over.
    ghost is_kept: { FileValue → List ℕ → Heard → Self → Type 0 };

    /// The file of a name ends the run so, by the faults of a shelf before and after, once this was handed over of it.
    ghost ends_run: { List (List ℕ) → List (List ℕ) → FileValue → List ℕ → List Heard → EndingValue → Type 0 };

    /// Takes the file of a name.
    fn read<S: Shelf>(alloc: Global, file: File, name: &str, shelf: &mut S) -> Result<Self, Stop>
        ensures told { S.told shelf.new ≡ S.told shelf.old }
        ensures lacks { S.lacks shelf.new ≡ S.lacks shelf.old }
        ensures notes { Notes (S.failed shelf.old) (S.failed shelf.new) name.now }
        ensures agrees { Agrees (S.told shelf.old) (S.lacks shelf.old) (S.heard shelf.old) (S.heard shelf.new) }
        ensures kept { IfOk result (λ kept. (heard : Heard) × (S.heard shelf.new ≡ S.heard shelf.old ++ heard ∷ []) × is_kept file name.now heard kept) }
        ensures ends { (before : List (List ℕ)) → Rises before (S.failed shelf.old) → StopsBy (λ end. (took : List Heard) × (S.heard shelf.new ≡ S.heard shelf.old ++ took) × ends_run before (S.failed shelf.new) file name.now took end) result };
}

impl Kept for Bytes {
    ghost is_kept = { IsWhole };

    ghost ends_run = { Stops };

    fn read<S: Shelf>(alloc: Global, file: File, name: &str, shelf: &mut S) -> Result<Self, Stop> {
        let mut bytes = Vec::new(alloc);
        match shelf.take(name, most_of(file), &mut bytes) {
            Ok(Taken::Whole) => Ok(Bytes::of(bytes)),
            Ok(Taken::Longer) => Err(Stop::Ends(Ending::TooLong(file))),
            Err(TakeError::Failed) => Err(Stop::Ends(Ending::ReadFault(file))),
            Err(TakeError::Memory) => Err(Stop::Memory),
        }
    }
}

impl Kept for Option<Bytes> {
    ghost is_kept = { IsWholeOrFront };

    ghost ends_run = { IsFault };

    fn read<S: Shelf>(alloc: Global, file: File, name: &str, shelf: &mut S) -> Result<Self, Stop> {
        match Bytes::read(alloc, file, name, shelf) {
            Ok(bytes) => Ok(Some(bytes)),
            Err(Stop::Ends(Ending::TooLong(_))) => Ok(None),
            Err(stop) => Err(stop),
        }
    }
}

/// The names of the files that a command takes, in the order of the words.
#[derive(Clone, Copy)]
pub struct Names<'a> {
    /// That of the domain.
    pub domain: &'a str,
    /// That of the problem.
    pub problem: &'a str,
    /// That of a third file, where the command takes one.
    pub third: Option<&'a str>,
}

/// The bytes of the files that a command takes.
#[derive(Drop)]
pub struct Files {
    /// Those of the domain.
    pub domain: Bytes,
    /// Those of the problem.
    pub problem: Bytes,
    /// Those of the third file, where the command takes one.
    pub third: Option<Bytes>,
}

/// Takes the files of these names, in their order, each at most once. What the third one is, is said beside them.
pub fn take_all<S: Shelf>(
    alloc: Global,
    names: Names<'_>,
    third: File,
    shelf: &mut S,
) -> Result<Files, Stop>
    ensures told { S.told shelf.new ≡ S.told shelf.old }
    ensures lacks { S.lacks shelf.new ≡ S.lacks shelf.old }
    ensures noted { NotesAmong (names_of names.entry) (S.failed shelf.old) (S.failed shelf.new) }
    // What is handed over is what the shelf tells, where it tells that.
    ensures agrees { Agrees (S.told shelf.old) (S.lacks shelf.old) (S.heard shelf.old) (S.heard shelf.new) }
    ensures taken { IfOk result (λ files. (took : List Heard) × (S.heard shelf.new ≡ S.heard shelf.old ++ took) × AreTaken (file_in third) 0 (names_of names.entry) took (bytes_of files)) }
    ensures stops { StopsBy (λ end. (took : List Heard) × (S.heard shelf.new ≡ S.heard shelf.old ++ took) × StopsFrom (S.failed shelf.old) (S.failed shelf.new) (file_in third) 0 (names_of names.entry) took end) result }
{
    let domain = Bytes::read(alloc, File::Domain, names.domain, shelf)?;
    let problem = Bytes::read(alloc, File::Problem, names.problem, shelf)?;
    let third = take_third(alloc, names.third, third, shelf)?;
    Ok(Files {
        domain,
        problem,
        third,
    })
}

// Takes the third of the files of a command, where there is one.
fn take_third<S: Shelf>(
    alloc: Global,
    name: Option<&str>,
    file: File,
    shelf: &mut S,
) -> Result<Option<Bytes>, Stop>
    ensures told { S.told shelf.new ≡ S.told shelf.old }
    ensures lacks { S.lacks shelf.new ≡ S.lacks shelf.old }
    ensures notes { (noted : List (List ℕ)) × (S.failed shelf.new ≡ S.failed shelf.old ++ noted) × AreAmong (third_name name.entry) noted }
    ensures agrees { Agrees (S.told shelf.old) (S.lacks shelf.old) (S.heard shelf.old) (S.heard shelf.new) }
    ensures kept { IfOk result (λ third. (took : List Heard) × (S.heard shelf.new ≡ S.heard shelf.old ++ took) × AreTaken (file_in file) 2 (third_name name.entry) took (third_bytes third)) }
    ensures ends { (before : List (List ℕ)) → Rises before (S.failed shelf.old) → StopsBy (λ end. (took : List Heard) × (S.heard shelf.new ≡ S.heard shelf.old ++ took) × StopsFrom before (S.failed shelf.new) (file_in file) 2 (third_name name.entry) took end) result }
{
    match name {
        Some(name) => Ok(Some(Bytes::read(alloc, file, name, shelf)?)),
        None => Ok(None),
    }
}

/// What is kept of the files of a batch: nothing of one that has more bytes than it may have.
pub struct BatchFiles {
    /// The domain.
    pub domain: Option<Bytes>,
    /// The problems, in the order of the words.
    pub problems: Vec<Option<Bytes>>,
}

/// Letting one go is one call, in which its parts go: whoever holds one proves one step.
impl Drop for BatchFiles {
    fn drop(self) {
        let BatchFiles {
            domain: _,
            problems: _,
        } = self;
    }
}

/// Takes a domain and problems, in the order of the words, each at most once.
pub fn take_batch<S: Shelf>(
    alloc: Global,
    domain: &str,
    problems: &[&str],
    shelf: &mut S,
) -> Result<BatchFiles, Stop>
    ensures told { S.told shelf.new ≡ S.told shelf.old }
    ensures lacks { S.lacks shelf.new ≡ S.lacks shelf.old }
    ensures noted { NotesAmong (domain.now ∷ texts problems.now) (S.failed shelf.old) (S.failed shelf.new) }
    ensures agrees { Agrees (S.told shelf.old) (S.lacks shelf.old) (S.heard shelf.old) (S.heard shelf.new) }
    ensures taken { IfOk result (λ files. (took : List Heard) × (S.heard shelf.new ≡ S.heard shelf.old ++ took) × AreTakenOrLong (file_in File.Problem) 0 (domain.now ∷ texts problems.now) took (files.domain ∷ files.problems.items)) }
    ensures stops { StopsBy (λ end. (took : List Heard) × (S.heard shelf.new ≡ S.heard shelf.old ++ took) × FaultsFrom (S.failed shelf.old) (S.failed shelf.new) (file_in File.Problem) 0 (domain.now ∷ texts problems.now) took end) result }
{
    let domain = Option::<Bytes>::read(alloc, File::Domain, domain, shelf)?;
    let mut files = BatchFiles {
        domain,
        problems: Vec::new(alloc),
    };
    'taking: while let Some(name) = problems.get(files.problems.len()) {
        let file = Option::<Bytes>::read(alloc, File::Problem, name, shelf)?;
        files.problems.push(file)?;
    }
    Ok(files)
}

// How many bytes a file may have.
fn most_of(file: File) -> usize
    ensures value { result ≡ most_of file }
    ensures some { 1 ≤ result }
{
    match file {
        File::Proof => CERTIFICATE_BYTES as usize,
        _ => MOST_BYTES,
    }
}
