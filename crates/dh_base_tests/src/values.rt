use dh_base::refusal::{called, entry, write_refusal};
use dh_base::*;
use std::alloc::{AllocError, Global};
use std::fmt;
use std::test::Fail;

fn name(text: &str) -> Result<Name, BaseFault> {
    Name::from_bytes(text.as_bytes())
}

#[test]
fn names_have_1_to_16_characters(rt: HostRuntime) -> Result<(), Fail> {
    assert_eq!(rt; name("carol-2")?.as_str(), "carol-2");
    assert_eq!(rt;
        name("a234567890123456")?.as_bytes(),
        b"a234567890123456".as_slice()
    );
    assert_eq!(rt;
        name("a2345678901234567").err(),
        Some(BaseFault::BadName { at: 16 })
    );
    assert_eq!(rt; name("").err(), Some(BaseFault::BadName { at: 0 }));
    assert_eq!(rt; name("2carol").err(), Some(BaseFault::BadName { at: 0 }));
    assert_eq!(rt; name("carol_2").err(), Some(BaseFault::BadName { at: 5 }));
    assert!(rt; name("ben")? < name("carol")?);
    assert!(rt; name("ben")? < name("ben-2")?);
    Ok(())
}

#[test]
fn values_are_printed(rt: HostRuntime) -> Result<(), Fail> {
    let alloc = rt.alloc();
    let mut bytes = [0; 32];
    bytes[0] = 3;
    bytes[31] = 254;
    let id = Id(bytes);
    let outcome = Outcome::Abort;
    let fault = BaseFault::BadName { at: 5 };
    let text = format!(in alloc; "{id} {outcome} {fault}")?;
    assert_eq!(rt;
        text.as_str(),
        "03000000000000000000000000000000000000000000000000000000000000fe abort 2 BadName 5"
    );
    Ok(())
}

/// A refusal that holds one, in the way of those of the crates above.
#[derive(Clone, Copy)]
struct Outer {
    held: BaseFault,
    of: Name,
}

impl Refusal for Outer {
    ghost use Rattle.std.specs.Prelude.{[], ◌∷◌, codes};
    ghost use Rattle.dh_base.specs.Refusals.{told_of, field_of};
    ghost use Rattle.dh_base.specs.BaseFaults.{base_fault_told};
    ghost use Rattle.dh_base.specs.declared.refusal.FieldValue.TheVariants.{Called};

    ghost told = { λ outer.
        told_of 9 (codes "Outer") (field_of (codes "of") (Called outer.of) ∷ [])
        ∷ base_fault_told outer.held };

    fn telling(&self, level: usize) -> Option<Telling> {
        Telling::holding(level, 9, "Outer", &[called("of", self.of)], &self.held)
    }
}

impl fmt::Display for Outer {
    ghost use Rattle.std.specs.Prelude.{Some, [], ◌∷◌, codes};
    ghost use Rattle.dh_base.specs.Refusals.{refusal_text, told_of, field_of};
    ghost use Rattle.dh_base.specs.BaseFaults.{base_fault_told};
    ghost use Rattle.dh_base.specs.declared.refusal.FieldValue.TheVariants.{Called};

    ghost output = { λ outer. Some (refusal_text
        (told_of 9 (codes "Outer") (field_of (codes "of") (Called outer.of) ∷ [])
        ∷ base_fault_told outer.held)) };

    fn fmt<W: fmt::Write>(&self, f: &mut fmt::Formatter<W>) -> fmt::Result {
        write_refusal(self, f)
    }
}

#[test]
fn a_held_refusal_stands_behind(rt: HostRuntime) -> Result<(), Fail> {
    let outer = Outer {
        held: BaseFault::Short { at: 7 },
        of: name("carol")?,
    };
    let text = format!(in rt.alloc(); "{outer}")?;
    assert_eq!(rt; text.as_str(), "9 Outer carol 1 Short 7");
    assert!(rt; outer.telling(1).is_some());
    assert!(rt; outer.telling(2).is_none());
    Ok(())
}

#[test]
fn records_of_logs_are_printed(rt: HostRuntime) -> Result<(), Fail> {
    let deal = Id(ABC);
    let start = entry("kept", None, 3, deal).value;
    let vote = entry("kept", Some(Outcome::Commit), 2, deal).value;
    let text = format!(in rt.alloc(); "{start}, {vote}")?;
    assert_eq!(rt;
        text.as_str(),
        "start 3 ba7816bf8f01cfea414140de5dae2223b00361a396177a9cb410ff61f20015ad, \
         commit 2 ba7816bf8f01cfea414140de5dae2223b00361a396177a9cb410ff61f20015ad"
    );
    Ok(())
}

fn source(alloc: Global, text: &str, fails: &[u32]) -> Result<MemSource, AllocError> {
    let bytes = text.as_bytes().to_vec(alloc)?;
    Ok(MemSource::new(List::from_vec(bytes), List::from_vec(fails.to_vec(alloc)?)))
}

#[test]
fn a_source_gives_pieces_and_fails_as_told(rt: HostRuntime) -> Result<(), Fail> {
    let mut source = source(rt.alloc(), "abcde", &[1])?;
    let mut buffer = [0; 3];
    assert_eq!(rt; source.read(&mut buffer), Ok(3));
    assert_eq!(rt; buffer, *b"abc");
    assert_eq!(rt; source.read(&mut buffer), Err(Failed));
    assert_eq!(rt; source.left(), 2);
    assert_eq!(rt; source.read(&mut buffer), Ok(2));
    assert_eq!(rt; buffer, *b"dec");
    assert_eq!(rt; source.read(&mut buffer), Ok(0));
    assert_eq!(rt; source.faults(), 1);
    Ok(())
}

#[test]
fn a_sink_keeps_what_is_written_and_fails_as_told(rt: HostRuntime) -> Result<(), Fail> {
    let alloc = rt.alloc();
    let fails = [0].to_vec(alloc)?;
    let mut sink = MemSink::new(alloc, List::from_vec(fails));
    assert_eq!(rt; sink.write(b"lost"), Err(Failed));
    assert_eq!(rt; sink.write(b"kept"), Ok(4));
    assert_eq!(rt; sink.written(), b"kept".as_slice());
    assert_eq!(rt; sink.faults(), 1);
    Ok(())
}

/// The digest of "abc" that FIPS 180-4 works out.
const ABC: [u8; 32] = [
    0xba, 0x78, 0x16, 0xbf, 0x8f, 0x01, 0xcf, 0xea, 0x41, 0x41, 0x40, 0xde, 0x5d, 0xae, 0x22, 0x23,
    0xb0, 0x03, 0x61, 0xa3, 0x96, 0x17, 0x7a, 0x9c, 0xb4, 0x10, 0xff, 0x61, 0xf2, 0x00, 0x15, 0xad,
];

#[test]
fn bytes_have_digests(rt: HostRuntime) {
    assert_eq!(rt; digest(b"abc"), Id(ABC));
}

#[test]
fn fields_that_are_put_are_taken(rt: HostRuntime) -> Result<(), Fail> {
    let mut text = Vec::new(rt.alloc());
    put_u8(&mut text, 0xfe)?;
    put_u16(&mut text, 0x0102)?;
    put_u32(&mut text, 0x03040506)?;
    put_u64(&mut text, 0x0708090a0b0c0d0e)?;
    put_id(&mut text, &Id(ABC))?;
    put_name(&mut text, &name("carol-2")?)?;
    put_text(&mut text, b"abc")?;
    assert_eq!(rt;
        &text[..15],
        [0xfe, 1, 2, 3, 4, 5, 6, 7, 8, 9, 10, 11, 12, 13, 14].as_slice()
    );
    assert_eq!(rt; &text[47..], b"\x07carol-2\0\0\0\x03abc".as_slice());
    assert_eq!(rt; take_u8(&text, 0), Ok(0xfe));
    assert_eq!(rt; take_u16(&text, 1), Ok(0x0102));
    assert_eq!(rt; take_u32(&text, 3), Ok(0x03040506));
    assert_eq!(rt; take_u64(&text, 7), Ok(0x0708090a0b0c0d0e));
    assert_eq!(rt; take_id(&text, 15), Ok(Id(ABC)));
    assert_eq!(rt; take_name(&text, 47)?.as_str(), "carol-2");
    assert_eq!(rt; next_text(&text, 55), Ok((b"abc".as_slice(), 62)));
    Ok(())
}

#[test]
fn fields_that_are_cut_or_no_names_are_refused(rt: HostRuntime) {
    assert_eq!(rt; take_u32(b"abcde", 2), Err(BaseFault::Short { at: 2 }));
    assert_eq!(rt;
        take_u8(b"", 4294967295),
        Err(BaseFault::Short { at: 4294967295 })
    );
    assert_eq!(rt;
        take_name(b"\x02a", 0).err(),
        Some(BaseFault::Short { at: 0 })
    );
    assert_eq!(rt;
        next_text(b".\0\0\0\x02a", 1),
        Err(BaseFault::Short { at: 5 })
    );
    assert_eq!(rt; next_text(b"\0\0\0", 0), Err(BaseFault::Short { at: 0 }));
    assert_eq!(rt; take_name(b"", 0).err(), Some(BaseFault::Short { at: 0 }));
    assert_eq!(rt;
        take_name(b".\x11", 1).err(),
        Some(BaseFault::BadName { at: 1 })
    );
    assert_eq!(rt;
        take_name(b".\x00", 1).err(),
        Some(BaseFault::BadName { at: 1 })
    );
    assert_eq!(rt;
        take_name(b".\x02a_", 1).err(),
        Some(BaseFault::BadName { at: 1 })
    );
}
