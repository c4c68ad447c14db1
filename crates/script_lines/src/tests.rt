use crate::{RefusedLine, ScriptRule, lesser_rule, names, passes_over, within_limit};
use line_text::{TextLine, Words};
use std::test::Fail;

#[test]
fn a_refused_line_is_told(rt: HostRuntime) -> Result<(), Fail> {
    let refused = RefusedLine {
        line: 12,
        rule: ScriptRule::TooManyDeviants,
    };
    let told = format!(in rt.alloc(); "{refused}")?;
    assert!(rt; told.as_str() == "line 12 rule 6 TooManyDeviants");
    Ok(())
}

#[test]
fn the_lesser_rule_is_named(rt: HostRuntime) {
    let bad = Some(ScriptRule::BadDeal);
    let twice = Some(ScriptRule::NameTwice);
    assert_eq!(rt; lesser_rule(bad, twice), twice);
    assert_eq!(rt; lesser_rule(twice, bad), twice);
    assert_eq!(rt; lesser_rule(None, bad), bad);
    assert_eq!(rt; lesser_rule(None, None), None);
}

#[test]
fn twenty_thousand_lines_may_say_something(rt: HostRuntime) {
    assert_eq!(rt; within_limit(19999, None), None);
    assert_eq!(rt; within_limit(20000, None), Some(ScriptRule::TooMany));
    let unbuilt = Some(ScriptRule::NotBuilt);
    assert_eq!(rt; within_limit(20000, unbuilt), Some(ScriptRule::TooMany));
    let bad = Some(ScriptRule::BadLine);
    assert_eq!(rt; within_limit(20000, bad), bad);
}

fn line(text: &[u8], ended: bool) -> TextLine<'_> {
    TextLine { text, ended }
}

#[test]
fn ended_comments_are_passed_over(rt: HostRuntime) {
    assert!(rt; passes_over(&line(b"", true)));
    assert!(rt; passes_over(&line(b"# none", true)));
    assert!(rt; !passes_over(&line(b"# none", false)));
    assert!(rt; !passes_over(&line(b"begin", true)));
}

#[test]
fn names_stand_at_the_end_of_a_line(rt: HostRuntime) -> Result<(), Fail> {
    let alloc = rt.alloc();
    let Some(two) = names(alloc, Words::new(b"ann ben"))? else {
        return Err(Fail::from("two names"));
    };
    assert_eq!(rt; two.len(), 2);
    assert!(rt; names(alloc, Words::new(b"ann 7"))?.is_none());
    assert!(rt; names(alloc, Words::new(b"ann "))?.is_none());
    Ok(())
}
