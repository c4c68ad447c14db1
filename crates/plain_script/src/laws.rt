//! Laws of plain scripts: their grammar, and which line is refused.

ghost use Rattle.std.specs.Prelude.{◌≡◌, ◌+◌, ◌-◌, ◌^◌, ◌<◌, ◌↔◌, ℕ, List, [], length, Ok, Some, None};
ghost use Rattle.line_text.specs.Lines.{Line};
ghost use Rattle.script_lines.specs.Refusals.{Refused, first_refused};
ghost use Rattle.plain_script.specs.Reading.{ScriptTold, line_rule, reading_of};
ghost use Rattle.script_lines.specs.Positions.{IsFirstBroken, KeepRules};
ghost use Rattle.plain_script.specs.Rules.{DeclareByRules};
ghost use Rattle.plain_script.specs.Spelling.{Spells, ScriptLine, SpellScript, IsReadAs};
ghost use Rattle.plain_script.specs.Said.{statement_of};
ghost use Rattle.script_lines.specs.declared.rule.ScriptRule.{ScriptRule};
ghost use Rattle.plain_script.specs.declared.statement.Statement.{Statement};

/// The line that is refused is the first one that breaks a rule, and none is refused where none
/// breaks one.
pub fn first_line()
    ensures some { (lines : List Line) (k : ℕ) (rule : ScriptRule) →
        ((first_refused line_rule [] lines ≡ Some (record { line = k + 1; rule = rule }))
        ↔ IsFirstBroken line_rule lines k rule) }
    ensures none { (lines : List Line) → ((first_refused line_rule [] lines ≡ None)
        ↔ KeepRules line_rule lines) }
    ensures counted { (lines : List Line) (refused : Refused)
        → first_refused line_rule [] lines ≡ Some refused →
        (k : ℕ) × (refused.line ≡ k + 1) }
{}

/// A line that spells a statement says that statement.
pub fn statement_of_spelled()
    ensures { (statement : Statement) (line : List ℕ) → Spells statement line
        → statement_of line ≡ Some statement }
{}

/// A line that says a statement spells it.
pub fn spelled_of_statement()
    ensures { (line : List ℕ) (statement : Statement) → statement_of line ≡ Some statement
        → Spells statement line }
{}

/// What is read is spelled by lines that keep the rules: none that says anything, or the head,
/// declarations, `begin` and events in this order, and these are what reading gives, each event
/// with the number of its line.
pub fn found()
    ensures { (script : List ℕ) (told : ScriptTold) → reading_of script ≡ Ok told →
        (lines : List ScriptLine) × IsReadAs script lines told }
{}

/// What is spelled so, keeps the rules and isn't too large is read so.
pub fn only()
    ensures { (script : List ℕ) (lines : List ScriptLine) (told : ScriptTold)
        → IsReadAs script lines told →
        reading_of script ≡ Ok told }
{}

/// Bytes spell one list of lines at most.
pub fn one_reading()
    ensures { (script : List ℕ) (lines others : List ScriptLine) → SpellScript lines script
        → SpellScript others script →
        lines ≡ others }
{}

/// The declarations that are read keep the rules, each behind those before it, and 32 bits count
/// the events.
pub fn read_by_rules()
    ensures declared { (script : List ℕ) (told : ScriptTold) → reading_of script ≡ Ok told
        → DeclareByRules [] told.declarations }
    ensures few { (script : List ℕ) (told : ScriptTold) → reading_of script ≡ Ok told
        → length told.events < 2 ^ 32 - 1 }
{}
