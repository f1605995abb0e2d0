//! Files, a source and a sink in memory, whose content is told.
ghost use Rattle.std.specs.Prelude.{◌≡◌, ◌+◌, ◌^◌, ◌<◌, ◌≤◌, ℕ, Some, [], ◌∷◌, ◌++◌, List, Option, IfOk, IfSome, OnOk, OnErr, IsTrue, MatchOption, vec_len, vec_capacity, drop, length};
ghost use Rattle.gc0_io.specs.Causes.{HasCause};
ghost use Rattle.gc0_io.specs.Held.{content_in};
ghost use Rattle.gc0_io.specs.Scripts.{is_planned};

use crate::outside::{Failed, Fetched, Files, Sink, Source};
use crate::script::Script;
use sqlite_items::Items;
use std::alloc::{AllocError, Global};

/// A file of `MemFiles`.
#[derive(Drop)]
pub struct Entry {
    name: Items<u8>,
    content: Items<u8>,
}

/// Files in memory. The first file of a name counts.
#[derive(Drop)]
pub struct MemFiles {
    alloc: Global,
    entries: Vec<Entry>,
    script: Script,
}

impl MemFiles {
    ghost use Rattle.std.specs.Prelude.{◌≡◌, None, ℕ, List, Some, OnErr, OnOk, ◌++◌, ◌∷◌, []};
    ghost use Rattle.gc0_io.specs.Fetching.{with_file};
    ghost use Rattle.gc0_io.specs.Memory.{held_files, files_failing};

    /// No files.
    pub fn new(alloc: Global) -> MemFiles
        ensures none { (name : List ℕ) → held_files result name ≡ None }
        ensures failing { files_failing result ≡ [] }
    {
        MemFiles {
            alloc,
            entries: Vec::new(alloc),
            script: Script::new(alloc),
        }
    }

    /// One more file, behind the others, which stay as they are.
    pub fn add(&mut self, name: &str, content: &[u8]) -> Result<(), AllocError>
        ensures ok { OnOk result (held_files self.old name.now ≡ None → held_files self.new name.now ≡ Some content.now) }
        ensures files { OnOk result ((asked : List ℕ) → held_files self.new asked ≡ with_file (held_files self.old) name.now content.now asked) }
        ensures err { OnErr result ((name : List ℕ) → held_files self.new name ≡ held_files self.old name) }
    {
        let name = Items::from_slice(self.alloc, name.as_bytes())?;
        let content = Items::from_slice(self.alloc, content)?;
        self.entries.push(Entry { name, content })?;
        Ok(())
    }

    /// The call of this number, from 0, is to fail.
    pub fn fail_at(&mut self, call: u64) -> Result<(), AllocError>
        ensures failing { OnOk result (files_failing self.new ≡ files_failing self.old ++ call ∷ []) }
        ensures err { OnErr result (files_failing self.new ≡ files_failing self.old) }
        ensures held { (name : List ℕ) → held_files self.new name ≡ held_files self.old name }
    {
        self.script.fail_at(call)
    }
}

impl Files for MemFiles {
    ghost contents = { λ m. Some (λ name. content_in m.entries.items name) };

    ghost faults = { λ m. m.script.faults };

    fn fetch(&mut self, alloc: Global, name: &str, most: usize) -> Fetched {
        if self.script.fails() {
            return Fetched::Failed;
        }
        let Some(content) = find(&self.entries, name.as_bytes()) else {
            return Fetched::Absent;
        };
        if content.len() > most {
            return Fetched::TooLong;
        }
        match Items::from_slice(alloc, content) {
            Ok(bytes) => Fetched::Found(bytes),
            Err(_) => Fetched::Memory,
        }
    }
}

// The content of the first file of this name.
fn find<'a>(entries: &'a [Entry], name: &[u8]) -> Option<&'a [u8]>
    ensures { MatchOption result (content_in entries.now name.now ≡ None) (λ x. content_in entries.now name.now ≡ Some x.now) }
{
    for entry in entries {
        if entry.name.as_slice() == name {
            return Some(entry.content.as_slice());
        }
    }
    None
}

/// Bytes in memory to read, at most `chunk` of them a call.
#[derive(Drop)]
pub struct MemSource {
    bytes: Vec<u8>,
    at: usize,
    chunk: usize,
    script: Script,
    ghost within: { at ≤ vec_len bytes },
    ghost some: { 0 < chunk },
}

impl MemSource {
    ghost use Rattle.std.specs.Prelude.{◌≡◌, ◌<◌, IfOk, OnOk, OnErr, ◌++◌, ◌∷◌, []};
    ghost use Rattle.gc0_io.specs.Memory.{held_left, source_failing};

    /// A source of these bytes, which gives at most `chunk` of them a call.
    pub fn new(alloc: Global, bytes: &[u8], chunk: usize) -> Result<MemSource, AllocError>
        requires { 0 < chunk }
        ensures bytes { IfOk result (λ s. held_left s ≡ bytes.now) }
        ensures failing { IfOk result (λ s. source_failing s ≡ []) }
    {
        Ok(MemSource {
            bytes: Vec::from_slice(alloc, bytes)?,
            at: 0,
            chunk,
            script: Script::new(alloc),
        })
    }

    /// The call of this number, from 0, is to fail.
    pub fn fail_at(&mut self, call: u64) -> Result<(), AllocError>
        ensures failing { OnOk result (source_failing self.new ≡ source_failing self.old ++ call ∷ []) }
        ensures err { OnErr result (source_failing self.new ≡ source_failing self.old) }
        ensures left { held_left self.new ≡ held_left self.old }
    {
        self.script.fail_at(call)
    }
}

impl Source for MemSource {
    ghost left = { λ s. Some (drop s.at s.bytes.items) };

    ghost faults = { λ s. s.script.faults };

    fn read(&mut self, buf: &mut [u8]) -> Result<usize, Failed> {
        if self.script.fails() {
            return Err(Failed);
        }
        let left = &self.bytes[self.at..];
        let count = left.len().min(buf.len()).min(self.chunk);
        buf[..count].copy_from_slice(&left[..count]);
        self.at += count;
        Ok(count)
    }
}

/// Memory to write to, up to a capacity.
#[derive(Drop)]
pub struct MemSink {
    bytes: Vec<u8>,
    capacity: usize,
    script: Script,
    ghost within: { vec_len bytes ≤ capacity },
    ghost room: { capacity ≤ vec_capacity bytes },
}

impl MemSink {
    ghost use Rattle.std.specs.Prelude.{◌≡◌, [], IfOk, OnOk, OnErr, ◌++◌, ◌∷◌};
    ghost use Rattle.gc0_io.specs.Memory.{held_taken, held_room, sink_failing};

    /// Room for `capacity` bytes, taken at once, so that no write takes memory.
    pub fn new(alloc: Global, capacity: usize) -> Result<MemSink, AllocError>
        ensures taken { IfOk result (λ s. held_taken s ≡ []) }
        ensures room { IfOk result (λ s. held_room s ≡ capacity) }
        ensures failing { IfOk result (λ s. sink_failing s ≡ []) }
    {
        Ok(MemSink {
            bytes: Vec::with_capacity(alloc, capacity)?,
            capacity,
            script: Script::new(alloc),
        })
    }

    /// The bytes that were taken.
    pub fn taken(&self) -> &[u8]
        ensures { result.now ≡ held_taken self.now }
    {
        self.bytes.as_slice()
    }

    /// The call of this number, from 0, is to fail.
    pub fn fail_at(&mut self, call: u64) -> Result<(), AllocError>
        ensures failing { OnOk result (sink_failing self.new ≡ sink_failing self.old ++ call ∷ []) }
        ensures err { OnErr result (sink_failing self.new ≡ sink_failing self.old) }
        ensures taken { held_taken self.new ≡ held_taken self.old }
        ensures room { held_room self.new ≡ held_room self.old }
    {
        self.script.fail_at(call)
    }
}

impl Sink for MemSink {
    ghost taken = { λ s. Some s.bytes.items };

    ghost faults = { λ s. s.script.faults };

    fn write(&mut self, piece: &[u8]) -> Result<usize, Failed> {
        if self.script.fails() {
            return Err(Failed);
        }
        let room = self.capacity - self.bytes.len();
        if room == 0 && !piece.is_empty() {
            self.script.fault();
            return Err(Failed);
        }
        let count = piece.len().min(room);
        self.bytes.extend_from_slice(&piece[..count]).unwrap();
        Ok(count)
    }
}
