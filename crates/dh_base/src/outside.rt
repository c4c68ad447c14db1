//! What is seen of the outside.

ghost use Rattle.dh_base.specs.Outside.{Seen};

/// Something that is read, written, or both.
pub trait Outside {
    /// What is seen of it: the bytes left and the bytes written, where they are told, and how many
    /// calls have failed.
    ghost seen: { Self → Seen };
}
