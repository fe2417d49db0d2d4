// Files by name.
ghost use Rattle.std.specs.Prelude.{◌≡◌, ◌≢◌, ◌<◌, ◌≤◌, ◌↔◌, ◌⊎◌, ◌==◌, ℕ, List, Option, Some, None, Contains, length, vec_len, is_err, IfOk, OnOk, OnErr, IfSome, IsErrOf};
ghost use Rattle.fault_counts.specs.Counts.{Rose, one_more};
ghost use Rattle.outside.specs.Told.{Told, Absent, Holds, ForContent};
ghost use Rattle.outside.specs.declared.files.FileErr.TheVariants.{TooLong, Failed, Memory};

use crate::is_listed;
use fault_counts::raised;
use std::alloc::{AllocError, AllocFailed, Global};
use std::collections::BTreeMap;
use thiserror::Error;

/// Why a read gave no bytes.
#[derive(Clone, Copy, Debug, PartialEq, Eq, Error)]
pub enum FileErr {
    /// The content is longer than the limit.
    #[error("long")]
    TooLong,
    /// There is no such file, or it could not be read.
    #[error("unread")]
    Failed,
    /// Memory ran out.
    #[error("memory")]
    Memory,
}

impl From<AllocError> for FileErr {
    ghost from_gives = { λ _ e. e ≡ Memory };

    fn from(_: AllocError) -> Self {
        FileErr::Memory
    }
}

/// Files that are read whole, by name.
pub trait Files {
    /// What is told of the bytes under a name.
    ghost content: { Self → List ℕ → Told };

    /// How often a read of a name has failed. An implementation may give one number as the count of every name.
    ghost faults: { Self → List ℕ → ℕ };

    /// The bytes under a name, in all at most `limit`. It may answer `FileErr::Memory` at any time. No answer changes
    /// what is told.
    fn read(&mut self, name: &str, limit: u32) -> Result<Vec<u8>, FileErr>
        ensures bytes { IfOk result (λ read. ForContent (content self.old name.now) (λ bytes. read.items ≡ bytes)) }
        ensures within { IfOk result (λ read. vec_len read ≤ limit) }
        ensures too_long { result ≡ Err FileErr.TooLong → ForContent (content self.old name.now) (λ bytes. limit < length bytes) }
        ensures failed { result ≡ Err FileErr.Failed → Rose (faults self.old name.now) (faults self.new name.now) }
        ensures kept { (n : List ℕ) → content self.new n ≡ content self.old n }
        ensures never_falls { (n : List ℕ) → faults self.old n ≤ faults self.new n };
}

/// Contents by name, in memory. It keeps one count of faults for all names, and a read fails only where the name is
/// absent.
#[derive(Drop)]
pub struct MemFiles {
    alloc: Global,
    contents: BTreeMap<String, Vec<u8>>,
    faults: u64,
}

impl MemFiles {
    ghost use Rattle.outside.specs.MemFiles.{content, faults_of};

    /// No files.
    pub fn new(alloc: Global) -> Self
        ensures empty { (n : List ℕ) → content result n ≡ Absent }
        ensures faults { faults_of result ≡ 0 }
    {
        MemFiles {
            alloc,
            contents: BTreeMap::new(alloc),
            faults: 0,
        }
    }

    /// Sets the content of a name.
    pub fn put(&mut self, name: &str, bytes: &[u8]) -> Result<(), AllocError>
        ensures ok { OnOk result (content self.new name.now ≡ Holds bytes.now) }
        ensures others { (n : List ℕ) → n ≢ name.now → content self.new n ≡ content self.old n }
        ensures err { OnErr result (content self.new name.now ≡ content self.old name.now) }
        ensures faults { faults_of self.new ≡ faults_of self.old }
    {
        let name = String::from_str(self.alloc, name)?;
        let bytes = bytes.to_vec(self.alloc)?;
        self.contents.insert(name, bytes)?;
        Ok(())
    }
}

impl Files for MemFiles {
    ghost use Rattle.outside.specs.MemFiles.{content as told, faults_of};

    ghost content = { told };

    ghost faults = { λ files name. faults_of files };

    fn read(&mut self, name: &str, limit: u32) -> Result<Vec<u8>, FileErr>
        ensures bytes { IfOk result (λ read. ForContent (told self.old name.now) (λ bytes. read.items ≡ bytes)) }
        ensures within { IfOk result (λ read. vec_len read ≤ limit) }
        ensures too_long { result ≡ Err FileErr.TooLong → ForContent (told self.old name.now) (λ bytes. limit < length bytes) }
        ensures failed { result ≡ Err FileErr.Failed → Rose (faults_of self.old) (faults_of self.new) }
        ensures kept { (n : List ℕ) → told self.new n ≡ told self.old n }
        ensures never_falls { (n : List ℕ) → faults_of self.old ≤ faults_of self.new }

        // Just the absent names fail, and just they are counted.
        ensures absent { (result ≡ Err FileErr.Failed) ↔ (told self.old name.now ≡ Absent) }
        ensures counted { told self.old name.now ≡ Absent → faults_of self.new ≡ one_more (faults_of self.old) }
        ensures uncounted { told self.old name.now ≢ Absent → faults_of self.new ≡ faults_of self.old }
    {
        match self.contents.get(name) {
            None => {
                self.faults = raised(self.faults);
                Err(FileErr::Failed)
            }
            Some(bytes) => {
                if bytes.len() > limit as usize {
                    return Err(FileErr::TooLong);
                }
                Ok(bytes.to_vec(self.alloc)?)
            }
        }
    }
}

/// Files in memory of which the listed calls of `read` fail. The first call has the number 1.
#[derive(Drop)]
pub struct FuseFiles {
    files: MemFiles,
    fails: Vec<u32>,
    calls: u64,
}

impl FuseFiles {
    ghost use Rattle.outside.specs.MemFiles.{content, faults_of, fuse_content, fuse_faults, listed_calls, calls_made};

    /// These files, with the numbers of the calls that fail, in any order.
    pub fn new(files: MemFiles, fails: Vec<u32>) -> Self
        ensures content { (n : List ℕ) → fuse_content result n ≡ content files n }
        ensures faults { fuse_faults result ≡ faults_of files }
        ensures listed { listed_calls result ≡ fails.items }
        ensures calls { calls_made result ≡ 0 }
    {
        FuseFiles {
            files,
            fails,
            calls: 0,
        }
    }
}

impl Files for FuseFiles {
    ghost use Rattle.outside.specs.MemFiles.{fuse_content, fuse_faults, listed_calls, calls_made};

    ghost content = { fuse_content };

    ghost faults = { λ fuse name. fuse_faults fuse };

    fn read(&mut self, name: &str, limit: u32) -> Result<Vec<u8>, FileErr>
        ensures bytes { IfOk result (λ read. ForContent (fuse_content self.old name.now) (λ bytes. read.items ≡ bytes)) }
        ensures within { IfOk result (λ read. vec_len read ≤ limit) }
        ensures too_long { result ≡ Err FileErr.TooLong → ForContent (fuse_content self.old name.now) (λ bytes. limit < length bytes) }
        ensures failed { result ≡ Err FileErr.Failed → Rose (fuse_faults self.old) (fuse_faults self.new) }
        ensures kept { (n : List ℕ) → fuse_content self.new n ≡ fuse_content self.old n }
        ensures never_falls { (n : List ℕ) → fuse_faults self.old ≤ fuse_faults self.new }

        // Just the listed calls and those for an absent name fail, and just they are counted.
        ensures calls { calls_made self.new ≡ one_more (calls_made self.old) }
        ensures same_list { listed_calls self.new ≡ listed_calls self.old }
        ensures listed { (result ≡ Err FileErr.Failed) ↔ (Contains (listed_calls self.old) (calls_made self.new) ⊎ (fuse_content self.old name.now ≡ Absent)) }
        ensures counted { result ≡ Err FileErr.Failed → fuse_faults self.new ≡ one_more (fuse_faults self.old) }
        ensures uncounted { result ≢ Err FileErr.Failed → fuse_faults self.new ≡ fuse_faults self.old }
    {
        self.calls = raised(self.calls);
        if is_listed(&self.fails, self.calls) {
            self.files.faults = raised(self.files.faults);
            return Err(FileErr::Failed);
        }
        self.files.read(name, limit)
    }
}
