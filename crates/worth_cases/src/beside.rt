// The answers of a case's valuation beside those by the definition, which a rule of independence gives.
use crate::draw::Case;
use rule::Independence;
use std::io;

// A mark where two answers differ.
fn mark(rt: &impl Print, differ: bool) -> io::Result<()> {
    if differ {
        print!(rt; " DIFFERS")?;
    }
    Ok(())
}

// The worth, with a mark where the definition of a set of at most seven members says another.
fn show_worth<I: Independence>(rt: &impl Print, rule: &I, c: &Case) -> io::Result<()> {
    let answer = kinds::worth_of(c.valuation, c.m, c.set);
    print!(rt; "worth {answer}")?;
    let few = sets::size(rule::below(c.m, c.set)) < 8;
    mark(rt, few && answer != rule.worth(c.m, c.set))
}

// What an independent set gains, with a mark where the definition says another.
fn show_gains<I: Independence>(rt: &impl Print, rule: &I, c: &Case) -> io::Result<()> {
    if !rule.independent(rule::below(c.m, c.set)) {
        return print!(rt; ", not independent");
    }
    let answer = kinds::gains_of(c.valuation, c.m, c.set);
    print!(rt; ", gains")?;
    for g in sets::members(answer) {
        print!(rt; " {g}")?;
    }
    mark(rt, answer != rule.gains(c.m, c.set))
}

// The worth and the gains of the case's set.
pub fn show<I: Independence>(rt: &impl Print, rule: &I, c: &Case) -> io::Result<()> {
    show_worth(rt, rule, c)?;
    show_gains(rt, rule, c)
}
