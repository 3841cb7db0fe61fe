// The two kinds of sources of the program, as one type.
ghost use Rattle.pdq.specs.AnySource.{seen_of};

use lists::{Places, Row, Text, Texts};
use row_text::PackedRows;
use source_trait::{AttachFault, CallFault, RequestLog, Source};
use std::alloc::Global;

/// The two kinds of sources of the program, as one type.
#[derive(Drop)]
pub(crate) enum AnySource<A, B> {
    Folder(A),
    Generator(B),
}

impl<A: Source, B: Source> Source for AnySource<A, B> {
    ghost seen = { seen_of A.seen B.seen };

    fn attach(
        &mut self,
        alloc: Global,
        rel: u32,
        columns: &Texts,
        locator: &Text,
    ) -> Result<(), AttachFault> {
        match self {
            AnySource::Folder(source) => source.attach(alloc, rel, columns, locator),
            AnySource::Generator(source) => source.attach(alloc, rel, columns, locator),
        }
    }

    fn call(
        &mut self,
        alloc: Global,
        rel: u32,
        positions: &Places,
        values: &Row,
    ) -> Result<PackedRows, CallFault> {
        match self {
            AnySource::Folder(source) => source.call(alloc, rel, positions, values),
            AnySource::Generator(source) => source.call(alloc, rel, positions, values),
        }
    }

    fn told(&self) -> Option<&RequestLog> {
        match self {
            AnySource::Folder(source) => source.told(),
            AnySource::Generator(source) => source.told(),
        }
    }
}
