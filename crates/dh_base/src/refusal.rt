//! Refusals, which tell what they are, and the refusals that they hold.

ghost use Rattle.std.specs.Prelude.{◌≡◌, ◌∷◌, ◌≤◌, [], List, Option, map, length, slice_get};
ghost use Rattle.std.specs.Fmt.{WritesOnOk};
ghost use Rattle.dh_base.specs.Refusals.{Told, field_told, field_of, refusal_text, option_field_text, telling_told, option_telling_told};
ghost use Rattle.dh_base.specs.declared.refusal.FieldValue.TheVariants.{Number, Hash, Called, Ending, Entry};

use crate::id::Id;
use crate::name::Name;
use crate::outcome::Outcome;
use std::fmt;

/// The most refusals that a refusal tells behind itself, each held by the one before.
pub const MOST_HELD: usize = 7;

/// What a field of a refusal holds.
#[derive(Clone, Copy)]
pub enum FieldValue {
    Number(u64),
    Hash(Id),
    Called(Name),
    Ending(Outcome),
    /// A record of a log: the start of a deal with so many parties, or the vote of a party's index.
    Entry {
        vote: Option<Outcome>,
        num: u16,
        deal: Id,
    },
}

/// A field of a refusal: its label and what it holds.
#[derive(Clone, Copy)]
pub struct Field {
    pub label: &'static str,
    pub value: FieldValue,
}

impl fmt::Display for FieldValue {
    ghost use Rattle.std.specs.Prelude.{Some};
    ghost use Rattle.dh_base.specs.Refusals.{value_text};

    ghost output = { λ v. Some (value_text v) };

    fn fmt<W: fmt::Write>(&self, f: &mut fmt::Formatter<W>) -> fmt::Result {
        match self {
            FieldValue::Number(number) => write!(f, "{number}"),
            FieldValue::Hash(id) => write!(f, "{id}"),
            FieldValue::Called(name) => write!(f, "{name}"),
            FieldValue::Ending(outcome) => write!(f, "{outcome}"),
            FieldValue::Entry {
                vote: None,
                num,
                deal,
            } => write!(f, "start {num} {deal}"),
            FieldValue::Entry {
                vote: Some(outcome),
                num,
                deal,
            } => write!(f, "{outcome} {num} {deal}"),
        }
    }
}

/// A field that holds a number.
pub fn number(label: &'static str, number: u64) -> Field
    ensures { field_told result ≡ field_of label.now (Number number) }
{
    Field {
        label,
        value: FieldValue::Number(number),
    }
}

/// A field that holds an id, such as a digest or an account.
pub fn hash(label: &'static str, id: Id) -> Field
    ensures { field_told result ≡ field_of label.now (Hash id) }
{
    Field {
        label,
        value: FieldValue::Hash(id),
    }
}

/// A field that holds a name.
pub fn called(label: &'static str, name: Name) -> Field
    ensures { field_told result ≡ field_of label.now (Called name) }
{
    Field {
        label,
        value: FieldValue::Called(name),
    }
}

/// A field that holds an outcome.
pub fn ending(label: &'static str, outcome: Outcome) -> Field
    ensures { field_told result ≡ field_of label.now (Ending outcome) }
{
    Field {
        label,
        value: FieldValue::Ending(outcome),
    }
}

/// A field that holds a record of a log.
pub fn entry(label: &'static str, vote: Option<Outcome>, num: u16, deal: Id) -> Field
    ensures { field_told result ≡ field_of label.now (Entry vote num deal) }
{
    Field {
        label,
        value: FieldValue::Entry { vote, num, deal },
    }
}

/// What a refusal tells of itself: its number, its name and its fields, in the order in which they
/// are printed. The number never changes: reports and replies name the refusal by it.
#[derive(Clone, Copy)]
pub struct Telling {
    pub number: u16,
    pub name: &'static str,
    pub first: Option<Field>,
    pub second: Option<Field>,
    pub third: Option<Field>,
    pub fourth: Option<Field>,
}

impl Telling {
    ghost use Rattle.dh_base.specs.Refusals.{told_of};

    /// A telling with these fields.
    pub fn new(number: u16, name: &'static str, fields: &[Field]) -> Telling
        requires { length fields.now ≤ 4 }
        ensures { telling_told result ≡ told_of number name.now (map field_told fields.now) }
    {
        Telling {
            number,
            name,
            first: fields.first().copied(),
            second: fields.get(1).copied(),
            third: fields.get(2).copied(),
            fourth: fields.get(3).copied(),
        }
    }

    /// What a refusal that holds no other tells at a level.
    pub fn at(level: usize, number: u16, name: &'static str, fields: &[Field]) -> Option<Telling>
        requires { length fields.now ≤ 4 }
        ensures { option_telling_told result ≡
            slice_get (told_of number name.now (map field_told fields.now) ∷ []) level }
    {
        if level == 0 {
            Some(Telling::new(number, name, fields))
        } else {
            None
        }
    }

    /// What a refusal that holds another tells at a level.
    pub fn holding<R: Refusal>(
        level: usize,
        number: u16,
        name: &'static str,
        fields: &[Field],
        held: &R,
    ) -> Option<Telling>
        requires { length fields.now ≤ 4 }
        ensures { option_telling_told result ≡
            slice_get
            (told_of number name.now (map field_told fields.now) ∷ R.told held.now) level }
    {
        if level == 0 {
            Some(Telling::new(number, name, fields))
        } else {
            held.telling(level - 1)
        }
    }
}

/// Writes a space and what the field holds, where there is one.
fn write_field<W: fmt::Write>(field: &Option<Field>, f: &mut fmt::Formatter<W>) -> fmt::Result
    ensures { WritesOnOk W.write_str_gives f.old result (option_field_text field.now) f.new }
{
    if let Some(field) = field {
        let value = field.value;
        write!(f, " {value}")?;
    }
    Ok(())
}

impl fmt::Display for Telling {
    ghost use Rattle.std.specs.Prelude.{Some};
    ghost use Rattle.dh_base.specs.Refusals.{told_text};

    ghost output = { λ telling. Some (told_text (telling_told telling)) };

    fn fmt<W: fmt::Write>(&self, f: &mut fmt::Formatter<W>) -> fmt::Result {
        let number = self.number;
        let name = self.name;
        write!(f, "{number} {name}")?;
        write_field(&self.first, f)?;
        write_field(&self.second, f)?;
        write_field(&self.third, f)?;
        write_field(&self.fourth, f)
    }
}

/// A refusal of a call. Each type of refusal says in one place what it tells.
pub trait Refusal {
    /// What it tells of itself, and behind it what each refusal tells that it holds.
    ghost told: { Self → List Told };

    /// What is told at a level: at level 0 its own, at level 1 what the refusal tells that it
    /// holds.
    fn telling(&self, level: usize) -> Option<Telling>
        ensures { option_telling_told result ≡ slice_get (told self.now) level };
}

/// Writes a refusal as reports print it: its number, its name and its fields, and behind them in
/// the same form the refusals that it holds, with single spaces between them all.
pub fn write_refusal<R: Refusal, W: fmt::Write>(
    refusal: &R,
    f: &mut fmt::Formatter<W>,
) -> fmt::Result
    ensures { WritesOnOk W.write_str_gives f.old result (refusal_text (R.told refusal.now)) f.new }
{
    let Some(own) = refusal.telling(0) else {
        return Ok(());
    };
    write!(f, "{own}")?;
    for place in 0..MOST_HELD {
        let next = refusal.telling(place + 1);
        if let Some(held) = next {
            write!(f, " {held}")?;
        }
    }
    Ok(())
}
