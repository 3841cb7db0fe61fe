// What a command meets outside, as one value.
ghost use Rattle.command_io.specs.Moments.{Moment, Outputs};

use source_trait::{Files, Sink};
use std::marker::Model;

/// The files and the two outputs of a command. Contracts see what they tell at a moment, as a `Moment`.
#[derive(Drop)]
pub struct Outside<F: Files, O: Sink, E: Sink> {
    pub files: F,
    pub outputs: Outputs<O, E>,
}

impl<F: Files, O: Sink, E: Sink> Model for Outside<F, O, E> {
    ghost Value = { Moment };

    ghost view = { λ outside. let outputs = outside.outputs in record {
      files = F.contents outside.files;
      file_faults = F.faults outside.files;
      out = outputs.out;
      out_faults = outputs.out_faults;
      err = outputs.err;
      err_faults = outputs.err_faults;
    } };
}

/// The two outputs of a command. Contracts see what they tell at a moment, as an `Outputs` of `specs/Moments.antt`.
#[derive(Drop)]
pub struct Outputs<O: Sink, E: Sink> {
    /// Standard output.
    pub out: O,
    /// Standard error.
    pub err: E,
}

impl<O: Sink, E: Sink> Model for Outputs<O, E> {
    ghost Value = { Outputs };

    ghost view = { λ outputs. record {
      out = O.taken outputs.out;
      out_faults = O.faults outputs.out;
      err = E.taken outputs.err;
      err_faults = E.faults outputs.err;
    } };
}
