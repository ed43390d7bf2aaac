//! How a job ends.
ghost use Rattle.std.specs.Prelude.{◌≡◌, []};
ghost use Rattle.onprom_core.specs.Texts.{text_of};

use crate::Status;
use outside::Bytes;
use std::alloc::Global;
use vocabulary::{List, Name};
use xes_writer::Log;

/// A text to be written. That of a log is made while it is written, so it never stands whole in memory.
#[derive(Drop)]
pub(crate) enum Text {
    Bytes(List<u8>),
    Log(Log<Name>),
}

impl Text {
    /// No text.
    pub(crate) fn none(alloc: Global) -> Text
        ensures { text_of result ≡ [] }
    {
        Text::Bytes(List::new(alloc))
    }
}

/// How a job ends: its status, and what is to be written for it.
#[derive(Drop)]
pub(crate) struct Output {
    pub status: Status,
    pub text: Text,
    pub report: Bytes,
}
