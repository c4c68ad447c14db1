//! Scripts that break a rule, each with the one line that is written for it.

use super::check_refused;
use std::alloc::Global;
use std::process::Abort;
use std::test::Fail;

/// Checks that the script of each row, behind these lines, is refused with the row's line and
/// status 2.
fn check_table(rt: &impl Abort, alloc: Global, before: &str, table: &str) -> Result<(), Fail> {
    check_refused(rt, alloc, "rehearse", before, table)
}

const HEADS: &str = "house| => line 1 rule 12 NotBuilt
|# none||house|party ann honest 4|begin| => line 4 rule 12 NotBuilt
house|nothing of this is read => line 1 rule 12 NotBuilt
house => line 1 rule 1 BadLine
house now| => line 1 rule 1 BadLine
plain|house|begin| => line 2 rule 1 BadLine
plain|begin|house| => line 3 rule 1 BadLine
begin| => line 1 rule 1 BadLine
#|ledger coins|begin| => line 2 rule 1 BadLine
Plain|begin| => line 1 rule 1 BadLine
plain text|begin| => line 1 rule 1 BadLine
plain|plain|begin| => line 2 rule 1 BadLine
plain|start d ann|begin| => line 2 rule 1 BadLine
plain|begin|begin| => line 3 rule 1 BadLine
plain|begin|plain| => line 3 rule 1 BadLine
plain|begin|ledger coins| => line 3 rule 1 BadLine
plain|begin|open coins coin ann 5| => line 3 rule 1 BadLine
plain|begin|deal d ann ben| => line 3 rule 1 BadLine";

#[test]
fn a_script_has_one_head(rt: HostRuntime) -> Result<(), Fail> {
    check_table(&rt, rt.alloc(), "", HEADS)
}

const ENDS: &str = "plain| => line 2 rule 1 BadLine
|plain||# begin| => line 5 rule 1 BadLine
plain|ledger coins|deal d ann ben| => line 4 rule 1 BadLine
plain => line 1 rule 1 BadLine
plain|ledger coins => line 2 rule 1 BadLine
plain|begin => line 2 rule 1 BadLine
plain|begin|# => line 3 rule 1 BadLine
# => line 1 rule 1 BadLine
|# none => line 2 rule 1 BadLine";

#[test]
fn a_script_has_a_begin_and_its_last_line_ends(rt: HostRuntime) -> Result<(), Fail> {
    check_table(&rt, rt.alloc(), "", ENDS)
}

/// Lines 1 to 4.
const DECLARED: &str = "plain\nledger coins\nopen coins coin ann 5\ndeal d ann ben\n";

const DECLARATION_FORMS: &str = "ledger  bank| => line 5 rule 1 BadLine
ledger bank | => line 5 rule 1 BadLine
 ledger bank| => line 5 rule 1 BadLine
ledger\tbank| => line 5 rule 1 BadLine
ledger bank\r| => line 5 rule 1 BadLine
\r| => line 5 rule 1 BadLine
 | => line 5 rule 1 BadLine
 # bank| => line 5 rule 1 BadLine
ledger| => line 5 rule 1 BadLine
ledger bank more| => line 5 rule 1 BadLine
Ledger bank| => line 5 rule 1 BadLine
ledgers bank| => line 5 rule 1 BadLine
ledger Bank| => line 5 rule 1 BadLine
ledger 2bank| => line 5 rule 1 BadLine
ledger -bank| => line 5 rule 1 BadLine
ledger ba_nk| => line 5 rule 1 BadLine
ledger b\u{e4}nk| => line 5 rule 1 BadLine
ledger a2345678901234567| => line 5 rule 1 BadLine
open coins coin cat| => line 5 rule 1 BadLine
open coins coin cat 5 5| => line 5 rule 1 BadLine
open coins coin cat five| => line 5 rule 1 BadLine
open coins coin cat 05| => line 5 rule 1 BadLine
open coins coin cat -5| => line 5 rule 1 BadLine
open coins coin cat +5| => line 5 rule 1 BadLine
open coins coin cat 5.0| => line 5 rule 1 BadLine
open coins coin cat 9223372036854775808| => line 5 rule 1 BadLine
open coins coin cat 18446744073709551617| => line 5 rule 1 BadLine
open coins coin cat 1234567890123456789012345678901234567890| => line 5 rule 1 BadLine
open coins Coin cat 5| => line 5 rule 1 BadLine
open coins coin Cat 5| => line 5 rule 1 BadLine
deal| => line 5 rule 1 BadLine
deal e| => line 5 rule 1 BadLine
deal e cat  dan| => line 5 rule 1 BadLine
deal e cat Dan| => line 5 rule 1 BadLine
party cat honest 4| => line 5 rule 1 BadLine
step d ann ben coins coin 5| => line 5 rule 1 BadLine";

#[test]
fn a_declaration_has_its_form(rt: HostRuntime) -> Result<(), Fail> {
    check_table(&rt, rt.alloc(), DECLARED, DECLARATION_FORMS)
}

const DECLARATIONS: &str = "ledger coins| => line 5 rule 2 NameTwice
ledger ann| => line 5 rule 2 NameTwice
ledger ben| => line 5 rule 2 NameTwice
ledger d| => line 5 rule 2 NameTwice
deal d cat dan| => line 5 rule 2 NameTwice
deal coins cat dan| => line 5 rule 2 NameTwice
deal ann cat dan| => line 5 rule 2 NameTwice
deal e cat coins| => line 5 rule 2 NameTwice
deal e cat d| => line 5 rule 2 NameTwice
deal e cat e| => line 5 rule 2 NameTwice
deal e cat| => line 5 rule 1 BadLine
deal e cat cat| => line 5 rule 1 BadLine
deal e cat dan cat| => line 5 rule 1 BadLine
open coins coin coins 5| => line 5 rule 2 NameTwice
open coins coin d 5| => line 5 rule 2 NameTwice
open bank coin cat 5| => line 5 rule 3 UnknownName
open ann coin cat 5| => line 5 rule 3 UnknownName
open d coin cat 5| => line 5 rule 3 UnknownName
open bank coin cat 5|ledger bank| => line 5 rule 3 UnknownName
open coins coin cat 0| => line 5 rule 7 BadOpening
open coins coin ann 6| => line 5 rule 7 BadOpening
open coins coin cat 9223372036854775803| => line 5 rule 7 BadOpening
open coins coin cat 9223372036854775802|open coins coin dan 1| => line 6 rule 7 BadOpening";

#[test]
fn a_declaration_keeps_the_rules(rt: HostRuntime) -> Result<(), Fail> {
    check_table(&rt, rt.alloc(), DECLARED, DECLARATIONS)
}

/// Lines 1 to 5.
const BEGUN: &str = "plain\nledger coins\nopen coins coin ann 5\ndeal d ann ben\nbegin\n";

const EVENT_FORMS: &str = "register coins d| => line 6 rule 1 BadLine
register coins d ann ben| => line 6 rule 1 BadLine
register  coins d ann| => line 6 rule 1 BadLine
register coins d a2345678901234567| => line 6 rule 1 BadLine
escrow coins d ann coin| => line 6 rule 1 BadLine
escrow coins d ann coin 05| => line 6 rule 1 BadLine
escrow coins d ann coin 9223372036854775808| => line 6 rule 1 BadLine
escrow coins d ann coin 1234567890123456789012345678901234567890| => line 6 rule 1 BadLine
transfer coins d ann 0 ben coin| => line 6 rule 1 BadLine
transfer coins d ann ben coin 5| => line 6 rule 1 BadLine
transfer coins d ann 00 ben coin 5| => line 6 rule 1 BadLine
transfer coins d ann x ben coin 5| => line 6 rule 1 BadLine
transfer coins d ann 0 ben coin 9223372036854775808| => line 6 rule 1 BadLine
start d| => line 6 rule 1 BadLine
start d ann ben| => line 6 rule 1 BadLine
start d ann | => line 6 rule 1 BadLine
start d\tann| => line 6 rule 1 BadLine
start d ann\r| => line 6 rule 1 BadLine
start d \u{e4}nn| => line 6 rule 1 BadLine
commit d| => line 6 rule 1 BadLine
abort d ann 0| => line 6 rule 1 BadLine
vote d ann commit| => line 6 rule 1 BadLine
claim coins d| => line 6 rule 1 BadLine
claim coins d 00| => line 6 rule 1 BadLine
claim coins d -1| => line 6 rule 1 BadLine
claim coins d one| => line 6 rule 1 BadLine
deliver coins ra| => line 6 rule 1 BadLine";

#[test]
fn an_event_has_its_form(rt: HostRuntime) -> Result<(), Fail> {
    check_table(&rt, rt.alloc(), BEGUN, EVENT_FORMS)
}

const EVENT_NAMES: &str = "register bank d ann| => line 6 rule 3 UnknownName
register ann d ann| => line 6 rule 3 UnknownName
register coins e ann| => line 6 rule 3 UnknownName
register coins coins ann| => line 6 rule 3 UnknownName
register coins d cat| => line 6 rule 3 UnknownName
register coins d d| => line 6 rule 3 UnknownName
escrow bank d ann coin 5| => line 6 rule 3 UnknownName
escrow coins e ann coin 5| => line 6 rule 3 UnknownName
escrow coins d cat coin 5| => line 6 rule 3 UnknownName
transfer bank d ann 0 ben coin 5| => line 6 rule 3 UnknownName
transfer coins e ann 0 ben coin 5| => line 6 rule 3 UnknownName
transfer coins d cat 0 ben coin 5| => line 6 rule 3 UnknownName
transfer coins d ann 0 cat coin 5| => line 6 rule 3 UnknownName
start e ann| => line 6 rule 3 UnknownName
start d cat| => line 6 rule 3 UnknownName
commit e ann| => line 6 rule 3 UnknownName
commit d cat| => line 6 rule 3 UnknownName
abort e ann| => line 6 rule 3 UnknownName
abort d cat| => line 6 rule 3 UnknownName
claim bank d 0| => line 6 rule 3 UnknownName
claim coins e 0| => line 6 rule 3 UnknownName";

#[test]
fn an_event_uses_declared_names(rt: HostRuntime) -> Result<(), Fail> {
    check_table(&rt, rt.alloc(), BEGUN, EVENT_NAMES)
}

const NUMBERS: &str = "claim coins d 1| => line 6 rule 10 OutOfRange
claim coins d 4294967296| => line 6 rule 10 OutOfRange
claim coins d 1234567890123456789012345678901234567890| => line 6 rule 10 OutOfRange
start d ann|claim coins d 2| => line 7 rule 10 OutOfRange
start d ann|start d ann|claim coins d 2| => line 8 rule 10 OutOfRange
start d ann|claim coins d 1|claim coins d 2| => line 8 rule 10 OutOfRange
transfer coins d ann 4294967296 ben coin 5| => line 6 rule 10 OutOfRange
transfer coins d ann 1234567890123456789012345678901234567890 ben coin 5| => line 6 rule 10 OutOfRange";

#[test]
fn a_number_keeps_its_range(rt: HostRuntime) -> Result<(), Fail> {
    check_table(&rt, rt.alloc(), BEGUN, NUMBERS)
}

const ORDERS: &str = "start d|start e ann| => line 6 rule 1 BadLine
start e ann|start d| => line 6 rule 3 UnknownName
#||start e ann|start d| => line 8 rule 3 UnknownName
claim coins d 1|claim coins d 2| => line 6 rule 10 OutOfRange
claim coins d 1|start d| => line 7 rule 1 BadLine
claim coins d 1|start e ann| => line 7 rule 3 UnknownName
claim coins d 1||begin| => line 8 rule 1 BadLine
claim coins d 1|ledger bank| => line 7 rule 1 BadLine
claim coins d 1|start d ann => line 7 rule 1 BadLine
claim coins d 1|# => line 7 rule 1 BadLine
transfer coins d ann 4294967296 ben coin 5|abort d cat| => line 7 rule 3 UnknownName
transfer coins d ann 4294967296 ben coin 5|claim coins d 1| => line 6 rule 10 OutOfRange";

#[test]
fn the_reading_goes_before_what_happens(rt: HostRuntime) -> Result<(), Fail> {
    check_table(&rt, rt.alloc(), BEGUN, ORDERS)
}

const EARLIER: &str = "ledger coins|deal e cat cat|begin| => line 5 rule 2 NameTwice
deal e cat cat|ledger coins|begin| => line 5 rule 1 BadLine
ledger coins|begin|start e ann| => line 5 rule 2 NameTwice
ledger bank|begin|start e ann| => line 7 rule 3 UnknownName
ledger coins| => line 5 rule 2 NameTwice";

#[test]
fn the_first_refused_line_is_named(rt: HostRuntime) -> Result<(), Fail> {
    check_table(&rt, rt.alloc(), DECLARED, EARLIER)
}
