//! The types of the two streams that are written, so that one cannot stand in the place of the other.
use pq_io::{Sink, StdSink};
use std::io::{Stderr, Stdout};

/// The sink of answers.
pub trait Answers: Sink {}

/// The sink of the lines that say why there is no answer.
pub trait Faults: Sink {}

impl Answers for StdSink<Stdout> {}

impl Faults for StdSink<Stderr> {}
