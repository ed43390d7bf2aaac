//! Files in memory, one of them current, for the shelves in memory.
ghost use Rattle.std.specs.Prelude.{◌≡◌, ◌≤◌, ◌<◌, false, min, List, [], ◌∷◌, ◌++◌, length, take, drop, Option, None, Some, is_some, OnOk, OnErr, IfSome, slice_get, Ok};
ghost use Rattle.std.specs.Io.KnownBytes.{Consumes, IsAtEnd};
ghost use Rattle.outside.specs.Files.{bytes_of};
ghost use Rattle.outside.specs.Opened.{left_of};

use crate::Bytes;
use crate::copying::copy_front;
use std::alloc::{AllocError, Global};
use std::marker::Model;

#[derive(Drop)]
pub(crate) struct Files {
    alloc: Global,
    files: Vec<(Bytes, Bytes)>,
    current: Option<usize>,
    place: usize,
}

impl Model for Files {
    ghost use Rattle.std.specs.Prelude.{◌≡◌, ◌≤◌, ◌<◌, IfSome, length};
    ghost use Rattle.outside.specs.Opened.{Opened, left_of};

    ghost Value = { Opened };

    ghost view = { λ f. record { files = f.files.items; left = left_of f.files.items f.current f.place } };

    ghost invariant = { λ f. IfSome f.current (λ i. i < length f.files.items) };
}

impl Files {
    ghost use Rattle.outside.specs.Opened.{Opened};

    pub fn new(alloc: Global) -> Self
        ensures { result ≡ record { files = []; left = None } }
    {
        Files {
            alloc,
            files: Vec::new(alloc),
            current: None,
            place: 0,
        }
    }

    pub fn holds(&self, name: &str) -> bool
        ensures { result ≡ is_some (bytes_of self.now.files name.now) }
    {
        number_of(&self.files, name.as_bytes()).is_some()
    }

    /// An `Err` changes nothing.
    pub fn add(&mut self, name: &str, bytes: &[u8]) -> Result<(), AllocError>
        ensures ok { OnOk result (self.new ≡ record { files = self.old.files ++ (name.now, bytes.now) ∷ []; left = self.old.left }) }
        ensures err { OnErr result (self.new ≡ self.old) }
    {
        let mut key = Bytes::new(self.alloc);
        key.append(name.as_bytes())?;
        let mut value = Bytes::new(self.alloc);
        value.append(bytes)?;
        self.files.push((key, value))?;
        Ok(())
    }

    pub fn close(&mut self)
        ensures { self.new ≡ record { files = self.old.files; left = None } }
    {
        self.current = None;
    }

    /// Makes the named file current at its front, or none.
    pub fn open(&mut self, name: &str) -> bool
        ensures found { result ≡ is_some (bytes_of self.old.files name.now) }
        ensures opened { self.new ≡ record { files = self.old.files; left = bytes_of self.old.files name.now } }
    {
        self.current = number_of(&self.files, name.as_bytes());
        self.place = 0;
        self.current.is_some()
    }

    /// Copies the next bytes of the current file.
    pub fn next(&mut self, buf: &mut [u8]) -> usize
        ensures bound { result ≤ length buf.new }
        ensures files { self.new.files ≡ self.old.files }
        ensures open { is_some self.new.left ≡ is_some self.old.left }
        ensures closed { is_some self.old.left ≡ false → result ≡ 0 }
        ensures bytes { Consumes self.old.left self.new.left (take result buf.new) }
        ensures end { result ≡ 0 → 0 < length buf.new → IsAtEnd self.new.left }
    {
        let Some(number) = self.current else {
            return 0;
        };
        let rest = rest_from(self.files[number].1.slice(), self.place);
        let count = copy_front(rest, buf);
        self.place += count;
        count
    }
}

fn rest_from(bytes: &[u8], place: usize) -> &[u8]
    ensures { result.now ≡ drop place bytes.now }
{
    if place < bytes.len() {
        &bytes[place..]
    } else {
        &bytes[bytes.len()..]
    }
}

// The place of the first file of that name.
fn number_of(files: &[(Bytes, Bytes)], name: &[u8]) -> Option<usize>
    ensures found { IfSome result (λ i. i < length files.now) }
    ensures bytes { left_of files.now result 0 ≡ bytes_of files.now name.now }
{
    for (number, file) in files.iter().enumerate() {
        if file.0.slice() == name {
            return Some(number);
        }
    }
    None
}
