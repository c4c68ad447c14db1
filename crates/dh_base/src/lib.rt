//! What the other crates share: names, ids, outcomes and limits; refusals, which tell a number, a
//! name and fields; the fields of byte texts, and digests of bytes; and the sources and sinks
//! through which a program reads and writes bytes.
//!
//! [`Outside`] says what is seen of a source or a sink, and [`Source`] and [`Sink`] what it may do:
//! give or take a piece of the bytes, or fail, which it counts. [`MemSource`] and [`MemSink`] are
//! such outsides in memory, which fail the calls that a test tells them to. [`ReaderSource`] and
//! [`WriterSink`] stand over the system's readers and writers.
#![tactic(auto)]

pub mod amount;
pub mod base_fault;
pub mod calls;
pub mod failure;
pub mod hash;
pub mod id;
pub mod laws;
pub mod limits;
pub mod list;
pub mod mem_sink;
pub mod mem_source;
pub mod name;
pub mod next;
pub mod outcome;
pub mod outside;
pub mod put;
pub mod refusal;
pub mod sink;
pub mod source;
pub mod standard;
pub mod take;

pub use amount::GREATEST_AMOUNT;
pub use base_fault::BaseFault;
pub use calls::Calls;
pub use failure::{Failed, NoMemory, count_fault};
pub use hash::digest;
pub use id::Id;
pub use limits::MOST_PARTIES;
pub use list::List;
pub use mem_sink::MemSink;
pub use mem_source::MemSource;
pub use name::Name;
pub use next::{next_id, next_name, next_text, next_u8, next_u16, next_u32, next_u64};
pub use outcome::Outcome;
pub use outside::Outside;
pub use put::{put_id, put_name, put_text, put_u8, put_u16, put_u32, put_u64};
pub use refusal::{Field, FieldValue, Refusal, Telling};
pub use sink::Sink;
pub use source::Source;
pub use standard::{ReaderSource, WriterSink};
pub use take::{take_id, take_name, take_u8, take_u16, take_u32, take_u64};
