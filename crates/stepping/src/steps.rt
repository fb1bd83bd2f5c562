// The steps of a case: `give G T`, `return G`, and `chain COUNT RUNS`, each with the holding that the one before it handed back.
ghost use Rattle.std.specs.Prelude.{IfOk};
ghost use Rattle.holding.specs.Count.{Right};

use crate::{moves, showing};
use holding::Holding;
use lines::{pieces, print};
use std::io;

// What a step hands back.
fn carried_out(rt: &impl Print, h: Holding, step: &[u8]) -> io::Result<Holding>
    requires { Right h }
    ensures { IfOk result (λ h. Right h) }
{
    let operands = lines::rest(step);
    let number = lines::number_or_max(operands);
    match lines::word(step) {
        b"give" => Ok(h.give(number, lines::number_or_max(lines::rest(operands)))),
        b"return" => Ok(h.give_back(number)),
        b"chain" => Ok(h.chain(moves::read(operands))),
        verb => {
            print::unknown(rt, verb)?;
            print!(rt; " ")?;
            Ok(h)
        }
    }
}

// Carries out a step that spaces may stand before, and prints the answer.
fn perform(rt: &impl Print, h: Holding, step: &[u8]) -> io::Result<Holding>
    requires { Right h }
    ensures { IfOk result (λ h. Right h) }
{
    let next = carried_out(rt, h, lines::trimmed(step))?;
    showing::answer(rt, h, next)?;
    Ok(next)
}

// Answers the steps of a text, with semicolons between the answers.
pub fn answer(rt: &impl Print, start: Holding, text: &[u8]) -> io::Result<()>
    requires { Right start }
{
    let mut h = start;
    for (k, step) in pieces::of(text, b';').enumerate() {
        if k > 0 {
            print!(rt; "; ")?;
        }
        h = perform(rt, h, step)?;
    }
    Ok(())
}
