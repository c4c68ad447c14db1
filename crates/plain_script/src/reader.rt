//! What the lines so far say, line by line.

ghost use Rattle.std.specs.Prelude.{◌≡◌, ◌<◌, ◌≤◌, ◌+◌, ◌-◌, ◌^◌, [], Ok, Some, None, IfOk, IfNone, OnOk};
ghost use Rattle.std.specs.Option.{option_to_list};
ghost use Rattle.line_text.specs.Seen.{line_of};
ghost use Rattle.plain_script.specs.Rules.{statement_rule, event_rule, said_rule};
ghost use Rattle.plain_script.specs.Fronts.{front_of, rule_behind, stated, stated_all, happened, front_after};

use crate::declarations::Declarations;
use crate::event::Event;
use crate::numbered::Numbered;
use crate::saying::statement;
use crate::statement::Statement;
use dh_base::NoMemory;
use line_text::TextLine;
use script_lines::{Place, ScriptRule, passes_over, within_limit};
use std::alloc::Global;
use std::marker::Model;

/// What the lines so far say. A contract sees it as the front of a script.
#[derive(Drop)]
pub struct Reader {
    number: u32,
    place: Place,
    declarations: Declarations,
    events: Vec<Numbered>,
}

impl Model for Reader {
    ghost use Rattle.plain_script.specs.Fronts.{Front};

    ghost Value = { Front };

    ghost view = { λ r. record {
      number = r.number;
      place = r.place;
      declarations = r.declarations;
      events = r.events.items;
    } };
}

impl Reader {
    /// No lines so far.
    pub fn new(alloc: Global) -> Reader
        ensures { result ≡ front_of [] }
    {
        Reader {
            number: 0,
            place: Place::Head,
            declarations: Declarations::new(alloc),
            events: Vec::new(alloc),
        }
    }

    /// How many lines there are so far.
    pub fn number(&self) -> u32
        ensures { result ≡ self.now.number }
    {
        self.number
    }

    /// Where the next line stands.
    pub fn place(&self) -> Place
        ensures { result ≡ self.now.place }
    {
        self.place
    }

    /// What was declared, and what happens.
    pub fn into_parts(self) -> (Declarations, Vec<Numbered>)
        ensures declarations { result.0 ≡ self.declarations }
        ensures events { result.1.items ≡ self.events }
    {
        let Reader {
            declarations,
            events,
            ..
        } = self;
        (declarations, events)
    }

    /// Takes an event of the line, or answers the rule that it breaks.
    fn happen(&mut self, event: Event) -> Result<Option<ScriptRule>, NoMemory>
        requires { self.old.number < 2 ^ 32 - 1 }
        ensures { IfOk result (λ rule. (rule ≡ event_rule self.old.declarations event)
            × IfNone rule (self.new ≡ happened self.old event)
            × (self.new.number ≡ self.old.number)) }
    {
        if !self.declarations.knows(&event) {
            return Ok(Some(ScriptRule::UnknownName));
        }
        self.events.push(Numbered {
            line: self.number + 1,
            event,
        })?;
        Ok(None)
    }

    /// Takes what the line says, or answers the rule that it breaks where it stands.
    fn state(&mut self, alloc: Global, statement: Statement) -> Result<Option<ScriptRule>, NoMemory>
        requires { self.old.number < 2 ^ 32 - 1 }
        ensures rule { IfOk result (λ rule. rule
            ≡ statement_rule self.old.place self.old.declarations statement) }
        ensures stated { IfOk result (λ rule. IfNone rule (self.new ≡ stated self.old statement)) }
        ensures number { OnOk result (self.new.number ≡ self.old.number) }
    {
        match (self.place, statement) {
            (Place::Head, Statement::Plain) => {
                self.place = Place::Declarations;
                Ok(None)
            }
            (Place::Head, Statement::House) => Ok(Some(ScriptRule::NotBuilt)),
            (Place::Declarations, Statement::Declare(declaration)) => {
                self.declarations.declare(alloc, declaration)
            }
            (Place::Declarations, Statement::Begin) => {
                self.place = Place::Events;
                Ok(None)
            }
            (Place::Events, Statement::Happen(event)) => self.happen(event),
            _ => Ok(Some(ScriptRule::BadLine)),
        }
    }

    /// Takes what a line says that isn't passed over, or answers the rule that it breaks.
    fn say(
        &mut self,
        alloc: Global,
        said: Option<Statement>,
    ) -> Result<Option<ScriptRule>, NoMemory>
        requires { self.old.number < 2 ^ 32 - 1 }
        ensures rule { IfOk result (λ rule. rule
            ≡ said_rule self.old.number self.old.place self.old.declarations said) }
        ensures stated { IfOk result (λ rule. IfNone rule (self.new
            ≡ stated_all self.old (option_to_list said))) }
        ensures number { OnOk result (self.new.number ≡ self.old.number) }
    {
        let Some(statement) = said else {
            return Ok(Some(ScriptRule::BadLine));
        };
        let rule = self.state(alloc, statement)?;
        Ok(within_limit(self.number, rule))
    }

    /// Takes the next line, or answers the rule that it breaks.
    pub fn read_line(
        &mut self,
        alloc: Global,
        line: &TextLine<'_>,
    ) -> Result<Option<ScriptRule>, NoMemory>
        requires { self.old.number < 2 ^ 32 - 1 }
        ensures rule { IfOk result (λ rule. rule ≡ rule_behind self.old (line_of line.now)) }
        ensures after { IfOk result (λ rule. IfNone rule (self.new
            ≡ front_after self.old (line_of line.now))) }
        ensures number { OnOk result (self.new.number ≡ self.old.number + 1) }
    {
        if passes_over(line) {
            self.number += 1;
            return Ok(None);
        }
        let said = if line.ended {
            statement(alloc, line.text)?
        } else {
            None
        };
        let rule = self.say(alloc, said)?;
        self.number += 1;
        Ok(rule)
    }
}
