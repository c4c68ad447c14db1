//! What lines of a small house build. Envelopes were computed outside, by a program of its own.

use dh_base::{Name, NoMemory, digest};
use house_building::{Bindings, BuildHalt, build};
use house_grammar::reading::house_line;
use house_grammar::{Building, Declaration, HouseLine};
use house_texts::Setting;
use key_ring::{Envelope, check};
use std::alloc::Global;
use std::test::Fail;

const HOUSE: &str = "party alice honest 2
party bob deviant 4
seat s0 honest 1
set one 0 0 s0
ledger coins
ledger tickets
deal d alice bob
step d bob alice coins coin 3
step d alice bob tickets ticket 1";

const LINES: &str = "forge r bob 0 register d
forge r bob 1 register d
forge e bob 1 escrow d coins coin 3
forge x bob 4 escrow d coins coin 3
forge x bob 4294967296 escrow d coins coin 3
forge x nobody 0 escrow d coins coin 3
forge x bob 0 escrow nothing coins coin 3
forge p alice 1 pay tickets bob coin 2
forge t bob 3 transfer d coins 0 alice coin 3
forge x bob 3 transfer d coins 4294967296 alice coin 3
forge b s0 0 bytes 00ff
flip f e
flip r e
flip x nothing
forge x bob 0 start d
log x";

const TOLD: &str = "\
r 4cbb72c25061ae32bdf8ab22b7f893ed934acd25a9747a7f5fcd9830e384a3fc 0 26118c646738394da6f36a2f1edfbc7e17abe45e0b1b8ba49a38e939bfc35ef3 212 true
rule 2 NameTwice
e 4cbb72c25061ae32bdf8ab22b7f893ed934acd25a9747a7f5fcd9830e384a3fc 1 03e42982d5b1238d5725c53db8f5416472e94353f1a7a0b46ca878a9ac4a8588 196 true
rule 10 OutOfRange
rule 10 OutOfRange
rule 3 UnknownName
rule 3 UnknownName
p 510da5e145a8ddce8c5a2afcdfdff1f575789fabe533b9487980bbc0ed89fa24 1 3383b86fc7b22bb0c9450e9115d113942570003d061edf2505a2de68dfc87cbd 94 true
t 4cbb72c25061ae32bdf8ab22b7f893ed934acd25a9747a7f5fcd9830e384a3fc 3 ce9e0d14bb93114ed6f97ab62e53e7a637b8a731951c97532bbfbf4e5296dbd4 92 true
rule 10 OutOfRange
b 7254af64c2a982b6602ce1e54314dae1dec321bf504c438e5ec05d2feeceadc5 0 06eb7d6a69ee19e5fbdf749018d3d2abfa04bcbd1365db312eb86dc7169389b8 229 true
f 4cbb72c25061ae32bdf8ab22b7f893ed934acd25a9747a7f5fcd9830e384a3fc 1 03e42982d5b1238d5725c53db8f5416472e94353f1a7a0b46ca878a9ac4a8588 197 false
rule 2 NameTwice
rule 3 UnknownName
rule 12 NotBuilt
rule 12 NotBuilt
";

fn declared(alloc: Global) -> Result<Vec<Declaration>, Fail> {
    let mut declarations = Vec::new(alloc);
    for line in HOUSE.lines() {
        if let Some(HouseLine::Declare(declaration)) = house_line(alloc, line.as_bytes())? {
            declarations.push(declaration)?;
        }
    }
    Ok(declarations)
}

/// The key of the envelope, its message's digest, and whether its signature is valid.
fn envelope_told(alloc: Global, name: &Name, envelope: &Envelope) -> Result<String, Fail> {
    let account = digest(envelope.ring.as_slice());
    let q = envelope.q;
    let message = digest(envelope.message.as_slice());
    let last = envelope.sig.y[66][31];
    let valid = check(envelope).is_ok();
    Ok(format!(in alloc; "{name} {account} {q} {message} {last} {valid}\n")?)
}

/// The name that the line binds.
fn name_of(item: &Building) -> Option<Name> {
    match item {
        Building::Forge { envelope, .. } => Some(*envelope),
        Building::Flip { flipped, .. } => Some(*flipped),
        _ => None,
    }
}

/// What the line builds, or the rule that it breaks.
fn line_told(
    alloc: Global,
    setting: &Setting,
    bound: &mut Bindings,
    item: &Building,
) -> Result<String, Fail> {
    match build(alloc, setting, bound, item) {
        Err(BuildHalt::NoMemory) => Err(Fail::from(NoMemory)),
        Err(BuildHalt::Broken(rule)) => {
            let number = rule.number();
            let name = rule.name();
            Ok(format!(in alloc; "rule {number} {name}\n")?)
        }
        Ok(()) => {
            let name = name_of(item).ok_or("no name")?;
            let envelope = bound.envelope(&name).ok_or("no envelope")?;
            envelope_told(alloc, &name, envelope)
        }
    }
}

/// What each line builds.
fn told(alloc: Global) -> Result<String, Fail> {
    let setting = Setting::of(alloc, &declared(alloc)?)?;
    let mut bound = Bindings::new(alloc);
    let mut told = String::new(alloc);
    for line in LINES.lines() {
        if let Some(HouseLine::Build(item)) = house_line(alloc, line.as_bytes())? {
            told.push_str(&line_told(alloc, &setting, &mut bound, &item)?)?;
        }
    }
    Ok(told)
}

#[test]
fn lines_build_envelopes_or_break_a_rule(rt: HostRuntime) -> Result<(), Fail> {
    assert!(rt; told(rt.alloc())?.as_str() == TOLD);
    Ok(())
}
